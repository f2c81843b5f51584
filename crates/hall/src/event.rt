// What can happen to a shuttle: an enum that is matched beside lent memory, a form of the project (docs/DECISIONS.md).
ghost use Rattle.std.specs.Prelude.{◌≡◌, false, ◌&&◌, length, nat_le, nat_lt, MatchResult};
ghost use Rattle.rules.specs.Tests.{every};
ghost use Rattle.rules.specs.Memory.{event_ok};

use field::{Refusal, are_squares};

#[derive(Clone, Copy)]
pub enum Event<'a> {
    // It is given a route, where it stands with nothing left.
    Order(&'a [u16]),
    // It asks for its next square.
    Step,
    // It moves, has come to its square, and stands.
    Arrive,
}

impl<'a> Event<'a> {
    ghost use Rattle.hall.specs.Event.{IsEvent, event_of};
    ghost use Rattle.hall.specs.Call.{accepts};

    // From the numbers of C: the event of kind 0, 1 or 2 of one of so many shuttles, or why a call with it is turned away.
    #[tactic(auto, using(crate::proofs::Events::event_is), unfolding(rules::specs::Memory::event_in))]
    pub fn accept(
        count: usize,
        kind: u64,
        shuttle: u64,
        route: &'a [u16],
    ) -> Result<Event<'a>, Refusal>
        ensures { MatchResult result (IsEvent count kind shuttle route.now)
            (λ e. (e ≡ Refusal.Event) × (event_ok count kind shuttle route.now ≡ false)) }
    {
        if shuttle >= count as u64 || !is_route(route) {
            return Err(Refusal::Event);
        }
        match kind {
            0 => Ok(Event::Order(route)),
            1 => Ok(Event::Step),
            2 => Ok(Event::Arrive),
            _ => Err(Refusal::Event),
        }
    }

    // Whether it is an event of one of so many shuttles that a call accepts.
    #[tactic(auto, using(crate::proofs::Events::event_is), unfolding(rules::specs::Event::who, calls::specs::Call::kind_of, calls::specs::Call::route_of, rules::specs::Tests::every))]
    pub(crate) fn is_of(self, count: usize, shuttle: u64) -> bool
        ensures { result ≡ accepts count (event_of shuttle self.entry) }
    {
        let route: &[u16] = match self {
            Event::Order(route) => route,
            Event::Step | Event::Arrive => &[],
        };
        shuttle < count as u64 && is_route(route)
    }
}

// Whether the route of an event is accepted: it is short, and none of its squares is past every field.
fn is_route(route: &[u16]) -> bool
    ensures { result ≡ (nat_le (length route.now) 256 && every (λ c. nat_lt c 4096) route.now) }
{
    route.len() <= 256 && are_squares(route, 4096)
}
