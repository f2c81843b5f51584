// The judge of a route: each step beside the one before, no wall, no bay but the own one at the end.
ghost use Rattle.std.specs.Prelude.{◌≡◌, ℕ, ◌<◌, List, length, slice_index, is_ok};
ghost use Rattle.rules.specs.Tests.{is_empty};
ghost use Rattle.rules.specs.Route.{step_ok, route_ok};
ghost use Rattle.field.specs.Model.{field_of};
ghost use Rattle.route.specs.Judged.{verdict};

use super::fault::Fault;
use field::Field;

// Whether the shuttle with this bay may go from one square to the next, which may be the last of its route.
#[tactic(auto, using(std::proofs::lemmas::Bool::Decides::nat_tests), unfolding(rules::specs::Route::step_ok, rules::specs::Memory::field_in))]
fn may_step(field: &Field, home: u16, from: u16, next: u16, last: bool) -> bool
    ensures { (i : ℕ) (rest : List ℕ) → home ≡ slice_index field.now.bays.now i → last ≡ is_empty rest
        → result ≡ step_ok (field_of field.now) i from next rest }
{
    field.beside(from, next)
        && field.is_free(next)
        && (!field.is_bay(next) || (next == home && last))
}

// Whether this row of squares is a route of the shuttle from that square, and if not, why.
pub fn judge(field: &Field, shuttle: usize, from: u16, route: &[u16]) -> Result<(), Fault>
    requires { shuttle < length field.now.bays.now }
    ensures judged { result ≡ verdict (field_of field.now) shuttle from route.now }
    ensures right { is_ok result ≡ route_ok (field_of field.now) shuttle from route.now }
{
    let home = field.bays[shuttle];
    let mut at = from;
    for (k, next) in route.iter().enumerate() {
        if !may_step(field, home, at, *next, k + 1 == route.len()) {
            return Err(Fault::WrongAt(k));
        }
        at = *next;
    }
    if at == home {
        Ok(())
    } else {
        Err(Fault::OutsideAfter(route.len()))
    }
}
