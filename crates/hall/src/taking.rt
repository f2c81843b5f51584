// Events are taken: what happens is written into memory.
#![tactic(auto, using(grant::proofs::Moving::granted_some, crate::proofs::Events::arrives_is), unfolding(rules::specs::Event::does, rules::specs::Event::who, rules::specs::Event::becomes))]

ghost use Rattle.std.specs.Prelude.{◌≡◌, ◌<◌, length};
ghost use Rattle.rules.specs.Event.{step, arrive, grants, arrives};
ghost use Rattle.rules.specs.Memory.{shuttle_in};
ghost use Rattle.field.specs.Model.{field_of};
ghost use Rattle.memory.specs.Halls.{Takes};
ghost use Rattle.hall.specs.Event.{event_of, short};

use super::event::Event;
use grant::is_granted;
use memory::Hall;
use orders::take_order;
use safety::Fleet;

// Whether the step is granted.
fn has_step(hall: &Hall, i: usize) -> bool
    requires { i < length hall.now.field.bays.now }
    ensures { result ≡ grants (field_of hall.now.field) (shuttle_in hall.now.memory.now) i }
{
    is_granted(&Fleet::read(&hall.field, hall.memory), i)
}

// Whether the step is granted; if it is, memory has the shuttle after it, and else is as it was.
fn take_step(hall: &mut Hall, i: usize) -> bool
    requires { i < length hall.old.field.bays.now }
    ensures { Takes hall.old hall.new (step i) result }
{
    let granted = has_step(hall, i);
    if granted {
        hall.write_step(i);
    }
    granted
}

// Whether the arrival is one; if it is, memory has the shuttle after it, and else is as it was.
pub fn take_arrival(hall: &mut Hall, i: usize) -> bool
    requires { i < length hall.old.field.bays.now }
    ensures { Takes hall.old hall.new (arrive i) result }
{
    let moves = hall.shuttle(i).moving;
    if moves {
        hall.write_arrival(i);
    }
    moves
}

// Whether the event happens; if it does, memory has what it makes of the shuttle, and else is as it was.
pub fn take_event(hall: &mut Hall, i: usize, event: Event) -> bool
    requires there { i < length hall.old.field.bays.now }
    requires short { short event }
    ensures { Takes hall.old hall.new (event_of i event.entry) result }
{
    match event {
        Event::Order(route) => take_order(hall, i, route),
        Event::Step => take_step(hall, i),
        Event::Arrive => take_arrival(hall, i),
    }
}
