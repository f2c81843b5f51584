// Ticks for C.
ghost use Rattle.rules.specs.Memory.{field_numbers};
ghost use Rattle.tick.specs.Tick.{Answered};

use super::answers::{HAPPENED, number_of};

// One tick, as tick::tick has it: HAPPENED with whose step is granted above it, or NOT.
#[unsafe(no_mangle)]
pub extern "C" fn tick(
    across: u64,
    down: u64,
    walls: &[u8],
    bays: &[u16],
    memory: &mut [u16],
    waits: &mut [u64],
    due: &[u8],
) -> u64
    ensures { Answered (field_numbers across down walls.now bays.now)
        memory.old waits.old due.now result memory.new waits.new }
{
    let answer = tick::tick(across, down, walls, bays, memory, waits, due);
    number_of(answer, HAPPENED)
}
