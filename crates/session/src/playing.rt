// A hall is opened and played: each event goes through the typed call of crate `hall`.
ghost use Rattle.std.specs.Prelude.{◌≡◌, ◌<◌, ◌≤◌, true, vec_len, MatchOption};
ghost use Rattle.rules.specs.Event.{order, step, arrive};
ghost use Rattle.rules.specs.Memory.{memory_ok};
ghost use Rattle.field.specs.Model.{numbers_in};
ghost use Rattle.hall.specs.Event.{event_of};
ghost use Rattle.text.specs.Routes.{squares_of};
ghost use Rattle.text.specs.Failures.{UnlessMemory};
ghost use Rattle.session.specs.Played.{field_of, fleet_of, Opened, Taken, Came};

use super::state::Session;
use field::{Direction, Field, Refusal};
use hall::{Event, call, start};
use memory::{Hall, NUMBERS};
use std::alloc::Global;
use text::{Answer, Failure, FieldText, squares_on};

// An event of a shuttle over memory that is lent with its field. Apart from the session, since of a vector whose part a
// struct holds nothing is known once the struct is let go.
fn take(field: Field, memory: &mut [u16], shuttle: u64, event: Event) -> Result<bool, Refusal>
    requires { memory_ok (numbers_in field) memory.old ≡ true }
    ensures { let e = event_of shuttle event.entry in
        Taken (numbers_in field.entry) memory.old e result memory.new }
{
    let mut hall = Hall { field, memory };
    call(&mut hall, shuttle, event)
}

impl Session {
    // Opens a hall with every shuttle at home; what was read is turned away if it is no field.
    pub fn open(heap: Global, shown: FieldText) -> Result<Session, Failure>
        ensures { UnlessMemory result (Opened shown) }
    {
        // At most sixteen, so that what is no field asks for no more memory.
        let mut memory = vec![in heap; 0u16; NUMBERS * shown.bays.len().min(16)]?;
        let walls = shown.walls.as_slice();
        let bays = shown.bays.as_slice();
        start(shown.across, shown.down, walls, bays, memory.as_mut_slice())?;
        Ok(Session { shown, memory })
    }

    // An event of a shuttle.
    fn event(&mut self, shuttle: u64, event: Event) -> Result<Answer, Refusal>
        ensures { Came self.old self.new (event_of shuttle event.entry) result }
    {
        let field = Session::lent(&self.shown);
        let memory = self.memory.as_mut_slice();
        if take(field, memory, shuttle, event)? {
            Ok(Answer::Granted)
        } else {
            Ok(Answer::Not)
        }
    }

    // The square that a shuttle is on, if it is there.
    fn square_of(&self, shuttle: u64) -> Option<u16>
        ensures { MatchOption result (vec_len self.now.shown.bays ≤ shuttle)
            (λ c. (shuttle < vec_len self.now.shown.bays) × (c ≡ (fleet_of self.now shuttle).at)) }
    {
        if shuttle < self.shown.bays.len() as u64 {
            Some(self.shuttle(shuttle as usize).at)
        } else {
            None
        }
    }

    // A shuttle is given the route that the ways lead over from where it is.
    pub fn order(
        &mut self,
        heap: Global,
        shuttle: u64,
        ways: &[Direction],
    ) -> Result<Answer, Failure>
        ensures { let from = (fleet_of self.old shuttle).at in
            let route = squares_of (field_of self.old) from ways.now in
            UnlessMemory result (Came self.old self.new (order shuttle route)) }
    {
        let from = self.square_of(shuttle).ok_or(Refusal::Event)?;
        let squares = squares_on(heap, &self.field(), from, ways)?;
        Ok(self.event(shuttle, Event::Order(squares.as_slice()))?)
    }

    // A shuttle asks for its next square.
    pub fn step(&mut self, shuttle: u64) -> Result<Answer, Refusal>
        ensures { Came self.old self.new (step shuttle) result }
    {
        self.event(shuttle, Event::Step)
    }

    // A shuttle has come to its square.
    pub fn arrive(&mut self, shuttle: u64) -> Result<Answer, Refusal>
        ensures { Came self.old self.new (arrive shuttle) result }
    {
        self.event(shuttle, Event::Arrive)
    }
}
