// The shortest way for C.
ghost use Rattle.rules.specs.Memory.{field_numbers};
ghost use Rattle.capi.specs.Numbers.{WaySays};

use super::answers::{FOUND, number_of};

// The first of the shortest routes of the shuttle from that square through the row, as way::way has it: FOUND with its
// length above it, or NOT.
#[unsafe(no_mangle)]
pub extern "C" fn way(
    across: u64,
    down: u64,
    walls: &[u8],
    bays: &[u16],
    shuttle: u64,
    from: u16,
    row: &[u16],
    route: &mut [u16],
) -> u64
    ensures { WaySays (field_numbers across down walls.now bays.now)
        shuttle from row.now route.old route.new result }
{
    let answer = way::way(across, down, walls, bays, shuttle, from, row, route);
    number_of(answer, FOUND)
}
