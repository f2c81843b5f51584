// The entry: an event happens, does not, or the call is turned away.
ghost use Rattle.std.specs.Prelude.{◌≡◌};
ghost use Rattle.rules.specs.Memory.{field_numbers, refusal};
ghost use Rattle.calls.specs.Call.{Answered};
ghost use Rattle.hall.specs.Answer.{done_of, number, refusal_of};

use super::done::Done;
use super::event::Event;
use super::taking::take_event;
use field::{Field, Refusal};
use memory::{Hall, is_memory};

// Whether the event happens, or why the call is turned away.
fn answer(
    across: u64,
    down: u64,
    walls: &[u8],
    bays: &[u16],
    memory: &mut [u16],
    kind: u64,
    shuttle: u64,
    route: &[u16],
) -> Result<bool, Refusal>
    ensures answered { Answered (field_numbers across down walls.now bays.now) memory.old kind shuttle route.now
        (number (done_of result)) memory.new }
    ensures refuses { refusal_of (done_of result)
        ≡ refusal (field_numbers across down walls.now bays.now) memory.old kind shuttle route.now }
{
    let field = Field::accept(across, down, walls, bays)?;
    if !is_memory(&field, memory) {
        return Err(Refusal::Memory);
    }
    let event = Event::accept(bays.len(), kind, shuttle, route)?;
    // by its literal after the test: of a `Result` that holds lent memory a caller would know nothing at the error
    let mut hall = Hall { field, memory };
    Ok(take_event(&mut hall, shuttle as usize, event))
}

// An event of one of the shuttles: kind 0 an order with this route, 1 a step, 2 an arrival. The field is across times
// down squares with a mark for each wall and a bay for each shuttle; memory has 260 numbers for each shuttle.
// What was promised of memory that calls have led to holds of the memory that this call leaves.
// The signature and `Done` are forms of the project (docs/DECISIONS.md); the parameters are those of the C function.
pub fn happen(
    across: u64,
    down: u64,
    walls: &[u8],
    bays: &[u16],
    memory: &mut [u16],
    kind: u64,
    shuttle: u64,
    route: &[u16],
) -> Done
    ensures answered { Answered (field_numbers across down walls.now bays.now) memory.old kind shuttle route.now
        (number result) memory.new }
    ensures refuses { refusal_of result
        ≡ refusal (field_numbers across down walls.now bays.now) memory.old kind shuttle route.now }
{
    answer(across, down, walls, bays, memory, kind, shuttle, route).into()
}
