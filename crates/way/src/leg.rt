// One leg of a way: from a square to another one, which is the next that is asked for.
ghost use Rattle.std.specs.Prelude.{◌≡◌, ◌≢◌, ◌*◌, ◌<◌};
ghost use Rattle.field.specs.Model.{field_of};
ghost use Rattle.ways.specs.Distances.{Ground};

use super::sizes::Table;
use field::Field;

// `ground` tells the squares that may be entered on any leg; `last` says that nothing but the goal itself is left with it, so that
// the goal may be the bay.
#[derive(Clone, Copy)]
pub struct Leg<'a> {
    pub field: Field<'a, 'a>,
    pub ground: &'a Table,
    pub start: u16,
    pub goal: u16,
    pub last: bool,
    ghost over: { Ground (field_of field) ground.now },
    ghost here: { start < field.across * field.down },
    ghost there: { goal < field.across * field.down },
    ghost apart: { start ≢ goal },
}
