// The entry: a field, a shuttle, a square and a row of squares in numbers, and a lent part for the route.
ghost use Rattle.std.specs.Prelude.{◌≡◌, ℕ, ◌*◌, ◌<◌, ◌≤◌, [], ◌∷◌, ◌++◌, length, slice_index};
ghost use Rattle.rules.specs.Memory.{field_numbers};
ghost use Rattle.way.specs.Lead.{Leads};
ghost use Rattle.way.specs.Answer.{Answered};

use super::asked::is_asked;
use super::legs::lead;
use super::sizes::{Goals, Route};
use field::{Field, Refusal};

// The way from a square through a row of squares and then home; nothing if there is none with few enough squares.
// That squares are of the field is asked of callers: a type for such a square would have to hold the field.
fn through(field: &Field, home: u16, from: u16, row: &[u16]) -> Option<Route>
    requires few { length row.now ≤ 8 }
    requires start { from < field.now.across * field.now.down }
    requires end { home < field.now.across * field.now.down }
    requires inside { (k : ℕ) → k < length row.now → slice_index row.now k < field.now.across * field.now.down }
    ensures { Leads field.now from (row.now ++ (home ∷ [])) result }
{
    let mut goals = Goals::new();
    goals.try_extend_from_slice(row).unwrap();
    goals.push(home);
    lead(field, from, goals.as_slice())
}

// The first, by right, down, left, up, of the shortest routes of a shuttle from a square through a row of squares, in the order of the row.
// It is written to the front of `route`, whose other places stay as they were, and how many squares it has is answered; nothing is
// written if there is none. The parameters are those of the C function.
pub fn way(
    across: u64,
    down: u64,
    walls: &[u8],
    bays: &[u16],
    shuttle: u64,
    from: u16,
    row: &[u16],
    route: &mut [u16],
) -> Result<Option<usize>, Refusal>
    ensures { Answered (field_numbers across down walls.now bays.now) shuttle from row.now route.old route.new result }
{
    let field = Field::accept(across, down, walls, bays)?;
    if shuttle >= field.bays.len() as u64 {
        return Err(Refusal::Event);
    }
    let shuttle = shuttle as usize;
    if !is_asked(&field, shuttle, from, row, route.len()) {
        return Err(Refusal::Way);
    }
    let Some(made) = through(&field, field.bays[shuttle], from, row) else {
        return Ok(None);
    };
    let squares = made.len();
    route[..squares].copy_from_slice(made.as_slice());
    Ok(Some(squares))
}
