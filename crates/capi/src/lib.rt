// The entry for C: the same numbers and slices, a slice being a pointer and a length, and one number as the answer. The
// parameters are those of the C functions.
#![tactic(auto)]

ghost use Rattle.rules.specs.Memory.{field_numbers};
ghost use Rattle.calls.specs.Call.{Answered};
ghost use Rattle.hall.specs.Start.{StartAnswered};

mod answers;
mod shortest;
mod ticks;

use answers::HAPPENED;
use field::Refusal;
pub use shortest::way;
pub use ticks::tick;

// An event of one of the shuttles, as hall::happen has it.
#[unsafe(no_mangle)]
pub extern "C" fn happen(
    across: u64,
    down: u64,
    walls: &[u8],
    bays: &[u16],
    memory: &mut [u16],
    kind: u64,
    shuttle: u64,
    route: &[u16],
) -> u64
    ensures { Answered (field_numbers across down walls.now bays.now)
        memory.old kind shuttle route.now result memory.new }
{
    hall::happen(across, down, walls, bays, memory, kind, shuttle, route).into()
}

// Start memory, as hall::start writes it.
#[unsafe(no_mangle)]
pub extern "C" fn start(
    across: u64,
    down: u64,
    walls: &[u8],
    bays: &[u16],
    memory: &mut [u16],
) -> u64
    ensures { StartAnswered (field_numbers across down walls.now bays.now)
        memory.old result memory.new }
{
    hall::start(across, down, walls, bays, memory).map_or_else(Refusal::code, |()| HAPPENED)
}
