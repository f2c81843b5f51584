// The entry: a tick is made, or turned away.
ghost use Rattle.std.specs.Prelude.{◌≡◌};
ghost use Rattle.rules.specs.Memory.{field_numbers};
ghost use Rattle.tick.specs.Answer.{number, refusal_of};
ghost use Rattle.tick.specs.Tick.{tick_refusal, Answered};

use super::arriving::make_arrivals;
use super::choosing::count_and_choose;
use super::lent::are_turns;
use field::{Field, Refusal};
use memory::{Hall, is_memory};

// A tick: makes the arrivals that are due, of which each has a mark of 1, counts how long each shuttle has waited, and
// grants one step, of the one that has waited longest, or none; it answers whose. The field and memory are those of the
// other calls; there is a wait and a mark for each shuttle.
// What was promised of memory that calls have led to holds of the memory that this call leaves.
// The parameters are those of the C function.
#[tactic(auto, using(crate::proofs::Turn::chosen_below, crate::proofs::Turn::chosen_some), unfolding(crate::specs::Tick::tick_refusal, crate::specs::Tick::turns_ok))]
pub fn tick(
    across: u64,
    down: u64,
    walls: &[u8],
    bays: &[u16],
    memory: &mut [u16],
    waits: &mut [u64],
    due: &[u8],
) -> Result<Option<usize>, Refusal>
    ensures answers { Answered (field_numbers across down walls.now bays.now)
        memory.old waits.old due.now (number result) memory.new waits.new }
    ensures refuses { refusal_of result
        ≡ tick_refusal (field_numbers across down walls.now bays.now) memory.old waits.old due.now }
{
    let field = Field::accept(across, down, walls, bays)?;
    if !is_memory(&field, memory) {
        return Err(Refusal::Memory);
    }
    if !are_turns(field.bays.len(), waits, due) {
        return Err(Refusal::Tick);
    }
    // by its literal after the test, as for an event
    let mut hall = Hall { field, memory };
    make_arrivals(&mut hall, due);
    let whose = count_and_choose(&hall, waits);
    if let Some(i) = whose {
        hall.write_step(i);
        waits[i] = 0;
    }
    Ok(whose)
}
