// The shortest way of a shuttle from its bay, in letters.
ghost use Rattle.std.specs.Prelude.{◌≡◌, IfOk, vec_items};
ghost use Rattle.std.specs.Option.{option_map};
ghost use Rattle.field.specs.Model.{field_of};
ghost use Rattle.text.specs.Failures.{UnlessMemory};
ghost use Rattle.session.specs.Played.{numbers_of};
ghost use Rattle.session.specs.Ways.{letters_of, square_at, squares_at, Told};

use super::numbers::Place;
use super::state::Session;
use field::{Field, Refusal};
use std::alloc::{AllocError, Global};
use text::{Failure, gather};
use way::way;

// The letters of a route from a square. A loop, since each letter is that of a step from the square before.
fn letters_of(heap: Global, field: &Field, from: u16, route: &[u16]) -> Result<Vec<u8>, AllocError>
    ensures { IfOk result (λ v. v.items ≡ letters_of (field_of field.now) from route.now) }
{
    let mut letters = Vec::new(heap);
    let mut at = from;
    for square in route {
        letters.push(field.direction_to(at, *square).into())?;
        at = *square;
    }
    Ok(letters)
}

// The number of a square of the field.
fn square_at(field: &Field, place: &Place) -> Option<u16>
    ensures { result ≡ square_at (field_of field.now) place.now }
{
    if place.column < field.across && place.row < field.down {
        Some((place.row * field.across + place.column) as u16)
    } else {
        None
    }
}

// The numbers of squares, or none if one of them is outside the field.
fn squares_at(heap: Global, field: &Field, places: &[Place]) -> Result<Option<Vec<u16>>, AllocError>
    ensures { let squares = squares_at (field_of field.now) places.now in
        IfOk result (λ o. option_map vec_items o ≡ squares) }
{
    gather(heap, places, |place| square_at(field, place))
}

impl Session {
    // The shortest way of a shuttle from its bay through these squares, in letters; nothing if
    // there is none.
    pub fn way(
        &self,
        heap: Global,
        shuttle: u64,
        places: &[Place],
    ) -> Result<Option<Vec<u8>>, Failure>
        ensures { UnlessMemory result (Told (numbers_of self.now) shuttle places.now) }
    {
        let field = self.field();
        let bay = field
            .bays
            .get(shuttle as usize)
            .copied()
            .ok_or(Refusal::Event)?;
        let row = squares_at(heap, &field, places)?.ok_or(Refusal::Way)?;
        // The entry writes the route into what is lent, as C lends it, and answers how many squares it has.
        let mut route = [0u16; 256];
        let found = way(
            field.across,
            field.down,
            field.walls,
            field.bays,
            shuttle,
            bay,
            row.as_slice(),
            &mut route,
        )?;
        match found {
            Some(squares) => Ok(Some(letters_of(heap, &field, bay, &route[..squares])?)),
            None => Ok(None),
        }
    }
}
