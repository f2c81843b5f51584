// Routes as letters, and as squares that they lead over.
ghost use Rattle.std.specs.Prelude.{◌≡◌, IfOk, vec_items};
ghost use Rattle.std.specs.Option.{option_map};
ghost use Rattle.field.specs.Model.{field_of};
ghost use Rattle.text.specs.Routes.{ways_in, squares_of};

use super::gathering::gather;
use field::{Direction, Field};
use std::alloc::{AllocError, Global};

// The ways that letters stand for, or none if one of them stands for no way.
pub fn read_ways(heap: Global, letters: &[u8]) -> Result<Option<Vec<Direction>>, AllocError>
    ensures { IfOk result (λ o. option_map vec_items o ≡ ways_in letters.now) }
{
    gather(heap, letters, |letter| Direction::try_from(*letter).ok())
}

// The squares that the ways lead over; a step over the field's edge stays where it is, which makes it a wrong one.
// A loop, since each square is one step from the square before.
pub fn squares_on(
    heap: Global,
    field: &Field,
    from: u16,
    ways: &[Direction],
) -> Result<Vec<u16>, AllocError>
    ensures { IfOk result (λ v. v.items ≡ squares_of (field_of field.now) from ways.now) }
{
    let mut squares = Vec::new(heap);
    let mut at = from;
    for way in ways {
        at = field.next(at, *way).unwrap_or(at);
        squares.push(at)?;
    }
    Ok(squares)
}
