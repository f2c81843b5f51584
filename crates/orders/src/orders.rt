// Taking an order: a shuttle that stands with nothing left is given a route from where it is.
// That a route is short is asked of callers, as everywhere above: the events of the project hold a slice (docs/DECISIONS.md).
ghost use Rattle.std.specs.Prelude.{◌≡◌, ◌<◌, ◌≤◌, length};
ghost use Rattle.rules.specs.Event.{order, takes};
ghost use Rattle.rules.specs.Memory.{shuttle_in};
ghost use Rattle.field.specs.Model.{field_of};
ghost use Rattle.memory.specs.Halls.{Takes};

use memory::Hall;
use route::judge;

// Whether the order is taken.
#[tactic(auto, using(crate::proofs::Taken::takes_is))]
fn is_taken(hall: &Hall, i: usize, route: &[u16]) -> bool
    requires there { i < length hall.now.field.bays.now }
    requires short { length route.now ≤ 256 }
    ensures { result ≡ takes (field_of hall.now.field) (shuttle_in hall.now.memory.now) i route.now }
{
    let shuttle = hall.shuttle(i);
    !shuttle.moving && shuttle.left == 0 && judge(&hall.field, i, shuttle.at, route).is_ok()
}

// Whether the order is taken; if it is, memory has it, and else is as it was.
#[tactic(auto, unfolding(rules::specs::Event::does, rules::specs::Event::who, rules::specs::Event::becomes))]
pub fn take_order(hall: &mut Hall, i: usize, route: &[u16]) -> bool
    requires there { i < length hall.old.field.bays.now }
    requires short { length route.now ≤ 256 }
    ensures { Takes hall.old hall.new (order i route.now) result }
{
    let taken = is_taken(hall, i, route);
    if taken {
        hall.write_order(i, route);
    }
    taken
}
