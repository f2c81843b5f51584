// A shuttle as memory has it.
ghost use Rattle.std.specs.Prelude.{◌≡◌, ℕ, ◌+◌, ◌*◌, ◌<◌, ◌≤◌, not, ◌&&◌, List, length};
ghost use Rattle.rules.specs.Tests.{is_empty};
ghost use Rattle.rules.specs.Shuttle.{holds};

use super::layout::{BEHIND, LEFT, MOVING, NUMBERS, ROUTE};

// As memory has it, where the square behind stands beside the mark, whatever the mark is; an `Option` would lose it.
// The square it is on, whether it is on its way there from the square behind, and where in memory stands what is left
// of its route. Sixteen of them are copied for each test of a step, so that they are kept small.
#[derive(Clone, Copy, PartialEq, Eq, Debug)]
pub struct Shuttle {
    pub at: u16,
    pub moving: bool,
    pub behind: u16,
    pub from: u16,
    pub left: u16,
}

impl Shuttle {
    ghost use Rattle.memory.specs.Shuttles.{shuttle_of, kept_at};

    // The shuttle past the last one.
    pub const NOBODY: Shuttle = Shuttle {
        at: 0,
        moving: false,
        behind: 0,
        from: 0,
        left: 0,
    };

    // Shuttle i of this memory.
    pub fn read(memory: &[u16], i: usize) -> Shuttle
        requires there { 260 * i + 260 ≤ length memory.now }
        requires few { i < 16 }
        ensures { result ≡ kept_at memory.now i }
    {
        let place = NUMBERS * i;
        Shuttle {
            at: memory[place],
            moving: memory[place + MOVING] == 1,
            behind: memory[place + BEHIND],
            from: (place + ROUTE) as u16,
            left: memory[place + LEFT],
        }
    }

    // Whether it holds the square: it is on it, or moves and comes from it.
    #[tactic(auto, unfolding(rules::specs::Shuttle::holds))]
    pub fn holds(self, square: u16) -> bool
        ensures { (m : List ℕ) → result ≡ holds (shuttle_of m self) square }
    {
        self.at == square || (self.moving && self.behind == square)
    }

    // Whether it waits for its next square: it stands with something left.
    #[tactic(auto, unfolding(rules::specs::Tests::is_empty))]
    pub fn waits(self) -> bool
        ensures { (m : List ℕ) → self.from + self.left ≤ length m
            → result ≡ (not self.moving && not (is_empty (shuttle_of m self).route)) }
    {
        !self.moving && self.left > 0
    }
}
