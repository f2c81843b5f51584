// The picture of the hall, sign by sign.
ghost use Rattle.std.specs.Prelude.{◌≡◌, ◌+◌, ◌<◌, ◌++◌, IfOk, OnOk, IfSome, vec_len};
ghost use Rattle.field.specs.Model.{field_of as lent_field};
ghost use Rattle.session.specs.Picture.{bay_at, holder_of, sign_at, picture_row, picture_of};
ghost use Rattle.session.specs.Played.{field_of, fleet_of, Kept};

use super::state::Session;
use field::Field;
use std::alloc::{AllocError, Global};

// The small letter of a shuttle. That it is below 16 is said by each function that hands a shuttle on: a type for such a
// number would have to hold the field.
pub fn letter_of(shuttle: usize) -> u8
    requires { shuttle < 16 }
    ensures { result ≡ 97 + shuttle }
{
    b'a' + shuttle as u8
}

// The shuttle whose bay a square is. By number, as for the shuttle that holds it: one lemma serves both, and a shuttle
// is read of memory by its number.
fn bay_at(field: &Field, square: u16) -> Option<usize>
    ensures is { result ≡ bay_at (lent_field field.now) square }
    ensures there { IfSome result (λ i. i < 16) }
{
    (0..field.bays.len())
        .rev()
        .find(|i| field.bays[*i] == square)
}

impl Session {
    // The shuttle that holds a square.
    fn holder_of(&self, square: u16) -> Option<usize>
        ensures is { result ≡ holder_of (field_of self.now) (fleet_of self.now) square }
        ensures there { IfSome result (λ i. i < 16) }
    {
        (0..self.shown.bays.len())
            .rev()
            .find(|i| self.shuttle(*i).holds(square))
    }

    // The sign of a square.
    #[tactic(auto, unfolding(rules::specs::Memory::field_in))]
    fn sign(&self, square: u16) -> u8
        requires { square < vec_len self.now.shown.walls }
        ensures { result ≡ sign_at (field_of self.now) (fleet_of self.now) square }
    {
        if let Some(i) = self.holder_of(square) {
            letter_of(i).to_ascii_uppercase()
        } else if let Some(i) = bay_at(&self.field(), square) {
            letter_of(i)
        } else if self.shown.walls[square as usize] == 1 {
            b'#'
        } else {
            b'.'
        }
    }

    // Puts the signs of a row behind those before it, and its end.
    fn put_row(&self, row: u64, signs: &mut Vec<u8>) -> Result<(), AllocError>
        requires { row < self.now.shown.down }
        ensures { let drawn = picture_row (field_of self.now) (fleet_of self.now) row in
            OnOk result (signs.new.items ≡ signs.old.items ++ drawn) }
    {
        let first = row * self.shown.across;
        for column in 0..self.shown.across {
            signs.push(self.sign((first + column) as u16))?;
        }
        signs.push(b'\n')?;
        Ok(())
    }

    // The picture of the hall; every promise holds of what it shows. Rows and columns are the numbers that a square is
    // made of; there is nothing else to go over.
    pub fn picture(&self, heap: Global) -> Result<Vec<u8>, AllocError>
        ensures drawn { let picture = picture_of (field_of self.now) (fleet_of self.now) in
            IfOk result (λ v. v.items ≡ picture) }
        ensures kept { Kept self.now }
    {
        let mut signs = Vec::new(heap);
        for row in 0..self.shown.down {
            self.put_row(row, &mut signs)?;
        }
        Ok(signs)
    }
}
