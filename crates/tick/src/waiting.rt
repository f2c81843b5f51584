// How long each has waited.
ghost use Rattle.std.specs.Prelude.{◌≡◌, true, length};
ghost use Rattle.turns.specs.Tick.{counted_to};
ghost use Rattle.safety.specs.Fleets.{fleet_of};
ghost use Rattle.tick.specs.Tick.{can_count};

use safety::Fleet;

// Counts: one that stands with something left has waited one more, and every other has not waited. An index stands
// beside `iter_mut`, since after a `zip` of it nothing is known of what was written.
#[tactic(auto, using(safety::proofs::Fitting::fitting, crate::proofs::Counts::counting), unfolding(turns::specs::Tick::counted_to, turns::specs::Tick::waits))]
pub fn count_waits(fleet: &Fleet, waits: &mut [u64])
    requires each { length waits.old ≡ fleet.now.count }
    requires small { can_count waits.old ≡ true }
    ensures { waits.new
        ≡ counted_to (fleet_of fleet.now.shuttles fleet.now.memory.now) waits.old fleet.now.count }
{
    for (i, wait) in waits.iter_mut().enumerate() {
        if fleet.shuttles[i].waits() {
            *wait += 1;
        } else {
            *wait = 0;
        }
    }
}
