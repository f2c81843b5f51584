// Writing a shuttle into memory, by its number or by the place at which its numbers begin. Start writes into memory that is not
// accepted yet; the others stand apart from the methods of `Hall`, which show that memory stays accepted, so that each says one
// thing.
ghost use Rattle.std.specs.Prelude.{◌≡◌, ℕ, ◌+◌, ◌*◌, ◌≤◌, false, length, slice_index};
ghost use Rattle.rules.specs.Field.{Field};
ghost use Rattle.rules.specs.Shuttle.{at_home, ordered, stepped, arrived};
ghost use Rattle.rules.specs.Memory.{shuttle_in, stored};
ghost use Rattle.memory.specs.Written.{headed, headed_from};

use super::layout::{BEHIND, LEFT, MOVING, NUMBERS, ROUTE};
use super::numbers::write_numbers;

// The four numbers of a shuttle that stand before what is left of its route.
#[derive(Clone, Copy, PartialEq, Eq, Debug)]
pub struct Head {
    pub at: u16,
    pub moving: bool,
    pub behind: u16,
    pub left: u16,
}

// Writes the four numbers of a shuttle from this place of memory on.
pub fn write_head_at(memory: &mut [u16], place: usize, head: Head)
    requires { place + 4 ≤ length memory.old }
    ensures { memory.new ≡ headed_from memory.old place head.at head.moving head.behind head.left }
{
    memory[place] = head.at;
    memory[place + MOVING] = u16::from(head.moving);
    memory[place + BEHIND] = head.behind;
    memory[place + LEFT] = head.left;
}

// Writes the four numbers of shuttle i where it stands: its own square is behind it.
fn write_standing(memory: &mut [u16], i: usize, at: u16, left: u16)
    requires { 260 * i + 4 ≤ length memory.old }
    ensures { memory.new ≡ headed memory.old i at false at left }
{
    let head = Head {
        at,
        moving: false,
        behind: at,
        left,
    };
    write_head_at(memory, NUMBERS * i, head);
}

// Writes shuttle i at home in this bay, where it stands with nothing left.
pub fn write_home(memory: &mut [u16], i: usize, bay: u16)
    requires { 260 * i + 4 ≤ length memory.old }
    ensures { (f : Field) → f.bay i ≡ bay → memory.new ≡ stored memory.old i (at_home f i) }
{
    write_numbers(memory, NUMBERS * i, bay, false, bay, 0);
}

// Writes the route that shuttle i is given where it stands. The part of memory for what is left is lent on, a form of
// the project (docs/DECISIONS.md).
pub fn write_order(memory: &mut [u16], i: usize, route: &[u16])
    requires there { 260 * i + 260 ≤ length memory.old }
    requires short { length route.now ≤ 256 }
    ensures { memory.new ≡ stored memory.old i (ordered (shuttle_in memory.old i) route.now) }
{
    let place = NUMBERS * i;
    let at = memory[place];
    let left = route.len();
    write_standing(memory, i, at, left as u16);
    let from = place + ROUTE;
    let to = from + left;
    memory[from..to].copy_from_slice(route);
}

// Writes a step of the shuttle whose numbers begin at this place, with something left: it is on its next square, moves from the
// one it was on, and has one less left. The part of memory for what is left is lent on, as for an order.
pub fn write_step_at(memory: &mut [u16], place: usize)
    requires there { place + 260 ≤ length memory.old }
    requires some { 1 ≤ slice_index memory.old (place + 3) }
    requires room { slice_index memory.old (place + 3) ≤ 256 }
    ensures { (i : ℕ) → place ≡ 260 * i → memory.new ≡ stored memory.old i (stepped (shuttle_in memory.old i)) }
{
    let behind = memory[place];
    let left = memory[place + LEFT];
    let from = place + ROUTE;
    let to = from + left as usize;
    let head = Head {
        at: memory[from],
        moving: true,
        behind,
        left: left - 1,
    };
    write_head_at(memory, place, head);
    memory[from..to].copy_within(1.., 0);
}

// Writes a step of shuttle i, with something left.
pub fn write_step(memory: &mut [u16], i: usize)
    requires there { 260 * i + 260 ≤ length memory.old }
    requires some { 1 ≤ slice_index memory.old (260 * i + 3) }
    requires room { slice_index memory.old (260 * i + 3) ≤ 256 }
    ensures { memory.new ≡ stored memory.old i (stepped (shuttle_in memory.old i)) }
{
    write_step_at(memory, NUMBERS * i);
}

// Writes the arrival of shuttle i: it stands, and its own square is behind it.
pub fn write_arrival(memory: &mut [u16], i: usize)
    requires there { 260 * i + 260 ≤ length memory.old }
    requires room { slice_index memory.old (260 * i + 3) ≤ 256 }
    ensures { memory.new ≡ stored memory.old i (arrived (shuttle_in memory.old i)) }
{
    let at = memory[NUMBERS * i];
    let left = memory[NUMBERS * i + LEFT];
    write_standing(memory, i, at, left);
}
