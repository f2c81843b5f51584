// What is kept for ticks of each shuttle: how many ticks it has waited, and how many ago its last step was. The two
// lie apart, since the waits are lent to each tick as C lends them.
ghost use Rattle.std.specs.Prelude.{◌≡◌, IfOk, slice_set};
ghost use Rattle.session.specs.Ticks.{older, marks_at, Fresh};

use super::state::Session;
use std::alloc::{AllocError, Global};

#[derive(Drop)]
pub struct Clock {
    pub(crate) waits: Vec<u64>,
    pub(crate) ages: Vec<u64>,
}

impl Clock {
    // A clock for a hall in which no tick was made.
    pub fn start(heap: Global, session: &Session) -> Result<Clock, AllocError>
        ensures { IfOk result (Fresh session.now) }
    {
        let count = session.shown.bays.len();
        let waits = vec![in heap; 0u64; count]?;
        let ages = vec![in heap; 0u64; count]?;
        Ok(Clock { waits, ages })
    }

    // A step of the shuttle was granted just now.
    pub fn stepped(&mut self, shuttle: u64)
        ensures ages { self.new.ages.items ≡ slice_set self.old.ages.items shuttle 0 }
        ensures waits { self.new.waits.items ≡ self.old.waits.items }
    {
        if let Some(age) = self.ages.get_mut(shuttle as usize) {
            *age = 0;
        }
    }
}

// Ages one tick later.
pub fn older(heap: Global, ages: &[u64]) -> Result<Vec<u64>, AllocError>
    ensures { IfOk result (λ v. v.items ≡ older ages.now) }
{
    ages.iter().map(|age| age.saturating_add(1)).collect(heap)
}

// A mark for each age: 1 if an arrival is due that many ticks after its step.
pub fn marks_at(heap: Global, due: u64, ages: &[u64]) -> Result<Vec<u8>, AllocError>
    ensures { IfOk result (λ v. v.items ≡ marks_at due ages.now) }
{
    ages.iter().map(|age| u8::from(due <= *age)).collect(heap)
}
