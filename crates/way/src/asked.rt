// Whether a way may be asked for.
ghost use Rattle.std.specs.Prelude.{◌≡◌, ◌<◌, length};
ghost use Rattle.field.specs.Model.{field_of};
ghost use Rattle.ways.specs.Asked.{start_ok, asked_ok};

use super::sizes::{ASKED, MOST};
use field::{Field, are_squares};

// Whether the shuttle may start from this square: it is free and nobody else's bay.
#[tactic(auto, using(crate::proofs::Size::sizes), unfolding(ways::specs::Asked::start_ok, rules::specs::Memory::field_in))]
fn is_start(field: &Field, shuttle: usize, from: u16) -> bool
    requires { shuttle < length field.now.bays.now }
    ensures { result ≡ start_ok (field_of field.now) shuttle from }
{
    field.is_free(from) && (!field.is_bay(from) || from == field.bays[shuttle])
}

// Whether the row is short enough and in the field, the shuttle may start from the square, and there are as many places as a route needs.
#[tactic(auto, using(crate::proofs::Size::sizes), unfolding(ways::specs::Asked::asked_ok, rules::specs::Memory::field_in))]
pub fn is_asked(field: &Field, shuttle: usize, from: u16, row: &[u16], places: usize) -> bool
    requires { shuttle < length field.now.bays.now }
    ensures { result ≡ asked_ok (field_of field.now) shuttle from row.now places }
{
    row.len() <= ASKED
        && places == MOST
        && are_squares(row, field.walls.len())
        && is_start(field, shuttle, from)
}
