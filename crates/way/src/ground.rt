// The squares of a field that one may enter on any leg.
ghost use Rattle.std.specs.Prelude.{◌≡◌, replicate};
ghost use Rattle.field.specs.Model.{field_of};
ghost use Rattle.ways.specs.Distances.{Ground};

use super::sizes::{FAR, SHUT, Table};
use field::Field;

// Opens in a table that is all shut the squares that are free and nobody's bay. One that is answered was tried: it is copied
// twice, and the way through a small hall takes half as long again.
pub fn open_ground(field: &Field, table: &mut Table)
    requires { table.old ≡ replicate 4096 65534 }
    ensures { Ground (field_of field.now) table.new }
{
    // by its number, since after a `zip` of `iter_mut` nothing is known of what was written
    for (square, mark) in field.walls.iter().enumerate() {
        table[square] = if *mark == 0 { FAR } else { SHUT };
    }
    for bay in field.bays {
        table[*bay as usize] = SHUT;
    }
}
