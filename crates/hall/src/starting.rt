// Start memory: all stand at home with nothing left.
ghost use Rattle.std.specs.Prelude.{◌≡◌};
ghost use Rattle.rules.specs.Memory.{field_numbers};
ghost use Rattle.hall.specs.Start.{start_number, turned_away, start_refusal, StartAnswered};

use field::{Field, Refusal};
use memory::{NUMBERS, write_home};

// Writes start memory for this field, or is turned away: for the field, or for memory of another length. Places for
// what is left stay as they were. The parameters are those of the C function.
pub fn start(
    across: u64,
    down: u64,
    walls: &[u8],
    bays: &[u16],
    memory: &mut [u16],
) -> Result<(), Refusal>
    ensures answered { StartAnswered (field_numbers across down walls.now bays.now) memory.old
        (start_number result) memory.new }
    ensures refuses { turned_away result ≡ start_refusal (field_numbers across down walls.now bays.now) memory.old }
{
    let field = Field::accept(across, down, walls, bays)?;
    if memory.len() != NUMBERS * field.bays.len() {
        return Err(Refusal::Memory);
    }
    for (i, bay) in field.bays.iter().enumerate() {
        write_home(memory, i, *bay);
    }
    Ok(())
}
