// Sixteen shuttles by value, of which the first so many are there (a form of the project, docs/DECISIONS.md). What is left of
// their routes stays in the memory that is lent.
ghost use Rattle.std.specs.Prelude.{◌≡◌, ℕ, true, length, take};
ghost use Rattle.rules.specs.Memory.{memory_ok, shuttle_in};
ghost use Rattle.field.specs.Model.{numbers_in};
ghost use Rattle.safety.specs.Fleets.{fleet_of, all_fit};

use field::Field;
use memory::Shuttle;

#[derive(Clone, Copy)]
pub struct Fleet<'a> {
    pub shuttles: [Shuttle; 16],
    pub count: usize,
    pub memory: &'a [u16],
    ghost fits: { all_fit shuttles count memory.now ≡ true },
}

impl<'a> Fleet<'a> {
    // The fleet of this memory, which is accepted for the field. It takes no hall, so that memory that is lent to be read will do.
    pub fn read(field: &Field, memory: &'a [u16]) -> Fleet<'a>
        requires { memory_ok (numbers_in field.now) memory.now ≡ true }
        ensures count { result.count ≡ length field.now.bays.now }
        ensures same { result.memory.now ≡ memory.now }
        ensures reads { (i : ℕ) → fleet_of result.shuttles memory.now i ≡ shuttle_in memory.now i }
    {
        let mut shuttles = [Shuttle::NOBODY; 16];
        let count = field.bays.len();
        for (i, shuttle) in shuttles[..count].iter_mut().enumerate() {
            *shuttle = Shuttle::read(memory, i);
        }
        Fleet {
            shuttles,
            count,
            memory,
        }
    }
}

impl Fleet<'_> {
    // The shuttles that are there.
    pub fn shuttles(&self) -> &[Shuttle]
        ensures long { length result.now ≡ self.now.count }
        ensures first { result.now ≡ take self.now.count self.now.shuttles }
    {
        let all: &[Shuttle] = &self.shuttles;
        &all[..self.count]
    }
}
