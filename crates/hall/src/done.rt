// What a call answers, in the form of the project (docs/DECISIONS.md): within, calls answer a `Result`.
ghost use Rattle.std.specs.Prelude.{◌≡◌, min};
ghost use Rattle.hall.specs.Answer.{done_of, number};

use field::Refusal;

#[derive(Clone, Copy, PartialEq, Eq, Debug)]
pub enum Done {
    // The order was taken, the step granted, the arrival made.
    Happened,
    // It was not, and nothing changed.
    Not,
    // The call was turned away by this number, and nothing changed.
    Refused(u64),
}

impl From<Result<bool, Refusal>> for Done {
    ghost from_gives = { λ answer done. done ≡ done_of answer };

    fn from(answer: Result<bool, Refusal>) -> Done {
        match answer {
            Ok(true) => Done::Happened,
            Ok(false) => Done::Not,
            Err(refusal) => Done::Refused(refusal.number()),
        }
    }
}

// The answer for C.
#[tactic(auto, unfolding(crate::specs::Answer::number))]
impl From<Done> for u64 {
    ghost from_gives = { λ done n. n ≡ min (number done) 0xffff_ffff_ffff_ffff };

    fn from(done: Done) -> u64 {
        match done {
            Done::Happened => 0,
            Done::Not => 1,
            Done::Refused(n) => n.saturating_add(16),
        }
    }
}
