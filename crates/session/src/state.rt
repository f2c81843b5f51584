// A hall that is played: the numbers of its field, and memory to which calls of the entry have led from start
// memory.
ghost use Rattle.calls.specs.Call.{Reached};
ghost use Rattle.text.specs.Shown.{numbers_of};

use field::Field;
use memory::Shuttle;
use text::FieldText;

#[derive(Drop)]
pub struct Session {
    pub(crate) shown: FieldText,
    pub(crate) memory: Vec<u16>,
    ghost reached: { ∥ Reached (numbers_of shown) memory.items ∥₁ },
}

impl Session {
    ghost use Rattle.std.specs.Prelude.{◌≡◌, ◌<◌, true, vec_len};
    ghost use Rattle.rules.specs.Memory.{field_ok};
    ghost use Rattle.field.specs.Model.{numbers_in};
    ghost use Rattle.memory.specs.Shuttles.{kept_at};
    ghost use Rattle.text.specs.Shown.{numbers_of};

    // The field that these numbers are, which are accepted. It is lent apart from memory, so that memory can be
    // written beside it.
    pub(crate) fn lent(shown: &FieldText) -> Field<'_, '_>
        requires { field_ok (numbers_of shown.now) ≡ true }
        ensures { numbers_in result ≡ numbers_of shown.now }
    {
        Field {
            across: shown.across,
            down: shown.down,
            walls: shown.walls.as_slice(),
            bays: shown.bays.as_slice(),
        }
    }

    // The field of the hall.
    pub(crate) fn field(&self) -> Field<'_, '_>
        ensures { numbers_in result ≡ numbers_of self.now.shown }
    {
        Session::lent(&self.shown)
    }

    // Shuttle i.
    pub(crate) fn shuttle(&self, i: usize) -> Shuttle
        requires { i < vec_len self.now.shown.bays }
        ensures { result ≡ kept_at self.now.memory.items i }
    {
        Shuttle::read(self.memory.as_slice(), i)
    }
}
