// Random halls of up to four shuttles, with their memory, and random routes in them.
use crate::fleet::{self, PER_SHUTTLE, Shuttle};
use crate::random::Random;
use std::io;

// Kinds of events, as hall::happen takes them: one is drawn as a number.
pub const ORDER: u64 = 0;

pub const STEP: u64 = 1;

// A field as the numbers that hall::happen takes, and its memory.
#[derive(Drop)]
pub struct Game<'a> {
    rt: &'a HostRuntime,
    across: u64,
    down: u64,
    walls: Vec<u8>,
    pub bays: Vec<u16>,
    pub memory: Vec<u16>,
}

impl<'a> Game<'a> {
    // At most six across and five down; every eighth square is a wall. All stand at home.
    pub fn new(rt: &'a HostRuntime, random: &mut Random) -> io::Result<Game<'a>> {
        let (across, down) = (1 + random.below(6) as u64, 1 + random.below(5) as u64);
        let walls = (0..across * down).map(|_| u8::from(random.below(8) == 0));
        let walls: Vec<u8> = walls.collect(rt.alloc())?;
        let (mut bays, mut memory) = (Vec::new(rt.alloc()), Vec::new(rt.alloc()));
        for _ in 0..4 {
            let bay = random.below(30);
            if walls.get(bay as usize) == Some(&0) && !bays.contains(&bay) {
                bays.push(bay)?;
                memory.extend_from_slice(&[u16::MAX; PER_SHUTTLE])?;
            }
        }
        let _ = hall::start(across, down, &walls, &bays, &mut memory);
        Ok(Game {
            rt,
            across,
            down,
            walls,
            bays,
            memory,
        })
    }

    // The shuttles as memory has them.
    pub fn fleet(&self) -> io::Result<Vec<Shuttle>> {
        fleet::read(self.rt, &self.memory)
    }

    // A walk out from the bay and back the same way. Some go past the end of a row and are no routes.
    pub fn route(&self, random: &mut Random, home: u16) -> io::Result<Vec<u16>> {
        let mut route = Vec::new(self.rt.alloc());
        for _ in 0..random.below(60) {
            let next = random.below(30);
            let apart = route.last().copied().unwrap_or(home).abs_diff(next) as u64;
            let is_open = self.walls.get(next as usize) == Some(&0) && !self.bays.contains(&next);
            if is_open && (apart == 1 || apart == self.across) {
                route.push(next)?;
            }
        }
        let back = route.iter().rev().skip(1).copied();
        let back: Vec<u16> = back.collect(self.rt.alloc())?;
        route.extend_from_slice(&back)?;
        route.push(home)?;
        Ok(route)
    }

    // Whether the event happens.
    pub fn happens(&mut self, kind: u64, shuttle: u64, route: &[u16]) -> bool {
        let (across, down, memory) = (self.across, self.down, &mut self.memory);
        let (walls, bays) = (&self.walls, &self.bays);
        let done = hall::happen(across, down, walls, bays, memory, kind, shuttle, route);
        matches!(done, hall::Done::Happened)
    }
}
