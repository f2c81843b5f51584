// Plays random halls from a fixed seed, and counts. By the rules the last four counts are 0: no two shuttles hold a
// square, no hall is stuck, all come home, steps are answered as by all orders. The others are what the seed gives.
#![tactic(auto)]

mod fleet;
mod game;
mod random;

use fleet::is_held;
use game::{Game, ORDER, STEP};
use random::Random;
use std::io;

#[derive(Debug, Default, Drop)]
struct Counts {
    states: u64,
    orders_taken: u64,
    steps_granted: u64,
    steps_refused: u64,
    collisions: u64,
    stuck: u64,
    not_home: u64,
    differences: u64,
}

// One more where it is so.
fn tally(count: &mut u64, so: bool) {
    *count = count.saturating_add(u64::from(so));
}

// Counts a state, with what each shuttle is answered that asks for a step.
fn inspect(game: &mut Game, counts: &mut Counts) -> io::Result<()> {
    let (mut waits, mut goes_on) = (false, false);
    let fleet = game.fleet()?;
    for (i, shuttle) in fleet.iter().enumerate() {
        let by_orders = fleet::is_granted(game.fleet()?, i);
        let memory = game.memory.clone()?;
        let granted = game.happens(STEP, i as u64, &[]);
        game.memory = memory;
        waits |= !shuttle.left.is_empty();
        goes_on |= granted || shuttle.behind != shuttle.at;
        tally(&mut counts.steps_granted, granted);
        tally(&mut counts.steps_refused, !granted);
        tally(&mut counts.differences, granted != by_orders);
        tally(&mut counts.collisions, is_held(&fleet, i, shuttle.at));
        tally(&mut counts.collisions, is_held(&fleet, i, shuttle.behind));
    }
    tally(&mut counts.states, true);
    tally(&mut counts.stuck, waits && !goes_on);
    Ok(())
}

// Each hall is played by random events, of which the later ones are no orders, until all are home.
fn main(rt: HostRuntime) -> io::Result<()> {
    let (mut random, mut counts) = (Random::new(2026), Counts::default());
    for _ in 0..300 {
        let mut game = Game::new(&rt, &mut random)?;
        let home = game.fleet()?;
        for turn in 0..2000 {
            let bay = game.bays.get(turn % 4).copied().unwrap_or(0);
            let route = game.route(&mut random, bay)?;
            let kind = random.below(3) as u64;
            let kind = kind.max(if turn < 400 { ORDER } else { STEP });
            if game.happens(kind, turn as u64 % 4, &route) {
                tally(&mut counts.orders_taken, kind == ORDER);
                inspect(&mut game, &mut counts)?;
            }
        }
        tally(&mut counts.not_home, game.fleet()? != home);
    }
    println!(rt; "{counts:#?}")
}
