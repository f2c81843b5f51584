// Taking out, again and again, any shuttle that can run.
ghost use Rattle.std.specs.Prelude.{◌≡◌, ℕ, ◌<◌, ◌≤◌, true, Decides, nat_lt, slice_index};
ghost use Rattle.agents.specs.Going.{CanGo, nobody};
ghost use Rattle.safety.specs.Masks.{has, round};

// Of each of the first so many shuttles, at most 16, the set of those that block it. An array and a count, as
// in `Fleet`, whose form stays (docs/DECISIONS.md): set i is that of shuttle i.
#[derive(Clone, Copy)]
pub struct Blockers {
    pub sets: [u16; 16],
    pub count: usize,
    ghost few: { count ≤ 16 },
    ghost below: { (i j : ℕ) → i < count → has (slice_index sets i) j ≡ true → j < count },
}

impl Blockers {
    // The set of all shuttles.
    fn everybody(&self) -> u16
        ensures { (j : ℕ) → has result j ≡ nat_lt j self.now.count }
    {
        ((1u32 << self.count) - 1) as u16
    }

    // One round over the shuttles: each is taken out if all that block it are out. `out` is the set of those taken out.
    fn taken_out(&self, out: u16) -> u16
        ensures { result ≡ round self.now.sets self.now.count out }
    {
        let mut out = out;
        for (i, blockers) in self.sets[..self.count].iter().enumerate() {
            let with = out | (1u16 << i);
            if blockers | with == with {
                out = with;
            }
        }
        out
    }

    // Whether all can run, one after the other: rounds are made until one takes out nobody. The loop is
    // a form of the project (docs/DECISIONS.md).
    pub fn all_go(&self) -> bool
        ensures { Decides result ((i : ℕ) → i < self.now.count
            → CanGo self.now.count (λ i j. has (slice_index self.now.sets i) j) nobody i) }
    {
        let mut out: u16 = 0;
        loop {
            let next = self.taken_out(out);
            if next == out {
                return self.everybody() | out == out;
            }
            out = next;
        }
    }
}
