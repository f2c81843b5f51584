// Whether all is safe: the shuttles can be put in an order in which each can run home past those behind it.
ghost use Rattle.std.specs.Prelude.{◌≡◌};
ghost use Rattle.rules.specs.Safe.{safe};
ghost use Rattle.safety.specs.Fleets.{fleet_of};

use super::blocking::blockers;
use super::fleet::Fleet;

impl Fleet<'_> {
    // Whether all is safe.
    pub fn is_safe(&self) -> bool
        ensures { result ≡ safe self.now.count (fleet_of self.now.shuttles self.now.memory.now) }
    {
        blockers(self).all_go()
    }
}
