// A call of an event in a hall, whose field and memory are accepted already.
ghost use Rattle.std.specs.Prelude.{◌≡◌};
ghost use Rattle.hall.specs.Event.{event_of};
ghost use Rattle.hall.specs.Call.{Called};

use super::event::Event;
use super::taking::take_event;
use field::Refusal;
use memory::Hall;

// Whether the event happens, or why it is turned away.
pub fn call(hall: &mut Hall, shuttle: u64, event: Event) -> Result<bool, Refusal>
    ensures same_reference { hall.new.memory.ghost_name ≡ hall.old.memory.ghost_name }
    ensures same_field { hall.new.field ≡ hall.old.field }
    ensures called { Called hall.old hall.new (event_of shuttle event.entry) result }
{
    if !event.is_of(hall.field.bays.len(), shuttle) {
        return Err(Refusal::Event);
    }
    Ok(take_event(hall, shuttle as usize, event))
}
