// The four numbers of a shuttle, each given by itself, written from a place of memory on.
ghost use Rattle.std.specs.Prelude.{◌≡◌, ◌+◌, ◌≤◌, length};
ghost use Rattle.memory.specs.Written.{headed_from};

use super::write::{Head, write_head_at};

// Writes its square, whether it moves, the square behind and how much is left, from this place of memory on.
pub fn write_numbers(
    memory: &mut [u16],
    place: usize,
    at: u16,
    moving: bool,
    behind: u16,
    left: u16,
)
    requires { place + 4 ≤ length memory.old }
    ensures { memory.new ≡ headed_from memory.old place at moving behind left }
{
    let head = Head {
        at,
        moving,
        behind,
        left,
    };
    write_head_at(memory, place, head);
}
