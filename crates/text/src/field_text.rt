// A field as numbers that a text gave.
ghost use Rattle.std.specs.Prelude.{◌≡◌, false, MatchResult};
ghost use Rattle.rules.specs.Memory.{field_ok};
ghost use Rattle.field.specs.Model.{numbers_in};
ghost use Rattle.text.specs.Shown.{numbers_of};

use field::{Field, Refusal};

// Its size, a mark for each square, 1 for a wall, and the square of each bay; apart, since a field is lent in these parts, from C too.
#[derive(Drop)]
pub struct FieldText {
    pub across: u64,
    pub down: u64,
    pub walls: Vec<u8>,
    pub bays: Vec<u16>,
}

impl FieldText {
    // The field that these numbers are; turned away if they are none.
    pub fn field(&self) -> Result<Field<'_, '_>, Refusal>
        ensures { MatchResult result (λ f. numbers_in f ≡ numbers_of self.now)
            (λ e. (e ≡ Refusal.Field) × (field_ok (numbers_of self.now) ≡ false)) }
    {
        let walls = self.walls.as_slice();
        Field::accept(self.across, self.down, walls, self.bays.as_slice())
    }
}
