// Whether lent memory is accepted: 260 numbers for each shuttle, and no square outside the field.
ghost use Rattle.std.specs.Prelude.{◌≡◌, ◌+◌, ◌*◌, ◌≤◌, length};
ghost use Rattle.rules.specs.Memory.{shuttle_ok, memory_ok};
ghost use Rattle.field.specs.Model.{numbers_in};

use super::layout::{BEHIND, LEFT, MOST, MOVING, NUMBERS, ROUTE};
use field::{Field, are_squares};

// Whether the numbers of shuttle i are accepted. That they lie in memory is asked of callers here and where they are read or
// written, since no type says it of memory that is not accepted yet.
#[tactic(auto, unfolding(rules::specs::Memory::shuttle_ok))]
fn is_shuttle(squares: usize, memory: &[u16], i: usize) -> bool
    requires some { 1 ≤ squares }
    requires there { 260 * i + 260 ≤ length memory.now }
    ensures { result ≡ shuttle_ok squares memory.now i }
{
    let place = NUMBERS * i;
    let left = memory[place + LEFT] as usize;
    if memory[place + MOVING] > 1 || left > MOST {
        return false;
    }
    if memory[place] as usize >= squares || memory[place + BEHIND] as usize >= squares {
        return false;
    }
    let from = place + ROUTE;
    let to = from + left;
    are_squares(&memory[from..to], squares)
}

// Whether memory is accepted for the shuttles of this field: what a `Hall` has, which is therefore not what is tested.
pub fn is_memory(field: &Field, memory: &[u16]) -> bool
    ensures { result ≡ memory_ok (numbers_in field.now) memory.now }
{
    let squares = field.walls.len();
    let count = field.bays.len();
    memory.len() == NUMBERS * count && (0..count).all(|i| is_shuttle(squares, memory, i))
}
