// Whether lent waits and marks are accepted: one of each for each shuttle.
ghost use Rattle.std.specs.Prelude.{◌≡◌};
ghost use Rattle.tick.specs.Tick.{can_count, turns_ok};

use field::are_marks;

// Whether each wait can count on. The largest one decides, as for marks and squares; each of the three has its own type
// and bound.
fn are_waits(waits: &[u64]) -> bool
    ensures { result ≡ can_count waits.now }
{
    waits.iter().copied().max().unwrap_or(0) < u64::MAX
}

// Whether waits and marks are accepted for so many shuttles. They stay slices beside the hall: a struct of the three
// would have each part of a tick say what it keeps of them, which is longer than that there are as many.
#[tactic(auto, unfolding(crate::specs::Tick::turns_ok))]
pub fn are_turns(count: usize, waits: &[u64], due: &[u8]) -> bool
    ensures { result ≡ turns_ok count waits.now due.now }
{
    waits.len() == count && due.len() == count && are_waits(waits) && are_marks(due)
}
