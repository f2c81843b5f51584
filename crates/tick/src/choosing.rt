// Whose turn it is.
ghost use Rattle.std.specs.Prelude.{◌≡◌, ◌<◌, ◌||◌, length, ◌==◌, nat_lt, slice_index, true, unwrap_or};
ghost use Rattle.std.specs.Option.{ForSome};
ghost use Rattle.rules.specs.Field.{Field};
ghost use Rattle.rules.specs.Memory.{shuttle_in};
ghost use Rattle.turns.specs.Tick.{counted, chosen};
ghost use Rattle.field.specs.Model.{field_of};
ghost use Rattle.safety.specs.Fleets.{fleet_of};
ghost use Rattle.tick.specs.Answer.{whose_of};
ghost use Rattle.tick.specs.Tick.{can_count};

use super::waiting::count_waits;
use grant::is_granted;
use memory::Hall;
use safety::Fleet;

// Whether one that has waited so long has waited longer than the best so far, or there is none so far.
fn has_waited_longer(waits: &[u64], best: Option<usize>, wait: u64) -> bool
    requires { ForSome best (λ b. b < length waits.now) }
    ensures { let n = length waits.now in let b = unwrap_or best n in
        result ≡ (b == n || nat_lt (slice_index waits.now b) wait) }
{
    best.is_none_or(|b| waits[b] < wait)
}

// Of the shuttles whose steps are granted the one that has waited longest, of equals the lowest. Whether a step is
// granted is asked last, since it takes longest.
#[tactic(auto, using(crate::proofs::Best::choosing), unfolding(turns::specs::Tick::chosen))]
fn choose(fleet: &Fleet, waits: &[u64]) -> Option<usize>
    requires { length waits.now ≡ fleet.now.count }
    ensures { let shuttle = fleet_of fleet.now.shuttles fleet.now.memory.now in
        (f : Field) → f.shuttles ≡ fleet.now.count
        → result ≡ whose_of f.shuttles (chosen f shuttle waits.now) }
{
    let mut best = None;
    for (i, wait) in waits.iter().enumerate() {
        if has_waited_longer(waits, best, *wait) && is_granted(fleet, i) {
            best = Some(i);
        }
    }
    best
}

// Counts the waits, and answers whose step is to be granted then.
#[tactic(auto, unfolding(turns::specs::Tick::counted, rules::specs::Memory::field_in))]
pub fn count_and_choose(hall: &Hall, waits: &mut [u64]) -> Option<usize>
    requires each { length waits.old ≡ length hall.now.field.bays.now }
    requires small { can_count waits.old ≡ true }
    ensures counts { waits.new
        ≡ counted (field_of hall.now.field) (shuttle_in hall.now.memory.now) waits.old }
    ensures whose { result ≡ whose_of (length hall.now.field.bays.now)
        (chosen (field_of hall.now.field) (shuttle_in hall.now.memory.now) waits.new) }
{
    let fleet = Fleet::read(&hall.field, hall.memory);
    count_waits(&fleet, waits);
    choose(&fleet, waits)
}
