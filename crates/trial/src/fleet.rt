// The shuttles as memory has them, and steps granted by all orders.
use std::io;

// Memory has this many numbers for each shuttle.
pub const PER_SHUTTLE: usize = 260;

// The square it is on, the one it comes from while it moves, else its own, and what is left of its route.
#[derive(Drop, PartialEq)]
pub struct Shuttle {
    pub at: u16,
    pub behind: u16,
    pub left: Vec<u16>,
}

impl Shuttle {
    fn holds(&self, square: u16) -> bool {
        self.at == square || self.behind == square
    }
}

// Written out as a loop: what is left of each route is allocated, which can fail, and a part that is too short is passed over,
// for which the library's chains have no plainer form.
pub fn read(rt: &HostRuntime, memory: &[u16]) -> io::Result<Vec<Shuttle>> {
    let mut fleet = Vec::new(rt.alloc());
    for part in memory.chunks(PER_SHUTTLE) {
        if let &[at, moving, behind, count, ref rest @ ..] = part {
            let behind = if moving == 1 { behind } else { at };
            let left = rest.iter().take(count as usize).copied();
            let left = left.collect(rt.alloc())?;
            fleet.push(Shuttle { at, behind, left })?;
        }
    }
    Ok(fleet)
}

// Whether a shuttle other than i holds the square.
pub fn is_held(fleet: &[Shuttle], i: usize, square: u16) -> bool {
    let mut fleet = fleet.iter().enumerate();
    fleet.any(|(j, other)| j != i && other.holds(square))
}

// Whether each can run home past those that do not run before it. With equal turns neither runs before the other.
fn can_run(fleet: &[Shuttle], turns: &[usize]) -> bool {
    fleet.iter().enumerate().all(|(i, one)| {
        let is_passed = |j: usize| i != j && turns.get(i) <= turns.get(j);
        let mut others = fleet.iter().enumerate();
        others.all(|(j, other)| !is_passed(j) || !one.left.contains(&other.at))
    })
}

// Whether shuttle i stands with something left, nobody else holds its next square, and after the step all can run.
pub fn is_granted(mut fleet: Vec<Shuttle>, i: usize) -> bool {
    let Some(shuttle) = fleet.get_mut(i) else {
        return false;
    };
    if shuttle.behind != shuttle.at || shuttle.left.is_empty() {
        return false;
    }
    let next = shuttle.left.remove(0);
    shuttle.at = next;
    let mut orders = (0..256).map(|code| [code % 4, code / 4 % 4, code / 16 % 4, code / 64]);
    orders.any(|turns| can_run(&fleet, &turns)) && !is_held(&fleet, i, next)
}
