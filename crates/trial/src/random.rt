// Random numbers that are the same for the same seed.
ghost use Rattle.std.specs.Prelude.{◌<◌};

use rand_pcg::Pcg32;

#[derive(Drop)]
pub struct Random(Pcg32);

impl Random {
    pub fn new(seed: u64) -> Random {
        Random(Pcg32::from_state(seed, 0))
    }

    // The next number, brought below n, or 0 where n is 0. It comes from the generator's state and not from the words
    // that it makes of it: by those the counts that are printed would be others.
    pub fn below(&mut self, n: u16) -> u16
        ensures { 0 < n → result < n }
    {
        self.0.advance(1);
        ((self.0.state() >> 33) % n.max(1) as u64) as u16
    }
}
