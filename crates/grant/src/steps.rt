// A step: granted if the shuttle stands with something left, nobody else holds its next square, and all is safe after
// it.
ghost use Rattle.std.specs.Prelude.{◌≡◌, ◌<◌};
ghost use Rattle.rules.specs.Field.{Field as Hall};
ghost use Rattle.rules.specs.Shuttle.{held_by_other};
ghost use Rattle.rules.specs.Event.{grants};
ghost use Rattle.safety.specs.Fleets.{fleet_of};

use memory::Shuttle;
use safety::Fleet;

// Whether a shuttle other than i holds the square.
fn is_held_by_other(fleet: &Fleet, i: usize, square: u16) -> bool
    ensures { result ≡ held_by_other (fleet_of fleet.now.shuttles fleet.now.memory.now) i square fleet.now.count }
{
    fleet
        .shuttles()
        .iter()
        .enumerate()
        .any(|(j, shuttle)| i != j && shuttle.holds(square))
}

// Whether the shuttle's step is granted.
pub fn is_granted(fleet: &Fleet, i: usize) -> bool
    requires { i < fleet.now.count }
    ensures { (f : Hall) → f.shuttles ≡ fleet.now.count
        → result ≡ grants f (fleet_of fleet.now.shuttles fleet.now.memory.now) i }
{
    let shuttle = fleet.shuttles[i];
    if !shuttle.waits() {
        return false;
    }
    let next = fleet.memory[shuttle.from as usize];
    if is_held_by_other(fleet, i, next) {
        return false;
    }
    let mut after = *fleet;
    after.shuttles[i] = Shuttle {
        at: next,
        moving: true,
        behind: shuttle.at,
        from: shuttle.from + 1,
        left: shuttle.left - 1,
    };
    after.is_safe()
}
