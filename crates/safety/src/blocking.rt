// Who blocks whom: a table of who stands where, and one walk over what is left of each route.
ghost use Rattle.std.specs.Prelude.{◌≡◌, ℕ, ◌<◌, true, ◌&&◌, ◌==◌, nat_lt, slice_index, slice_index_or};
ghost use Rattle.rules.specs.Tests.{every, among};
ghost use Rattle.memory.specs.Shuttles.{nobody};
ghost use Rattle.safety.specs.Masks.{has, met};
ghost use Rattle.safety.specs.Fleets.{fleet_of};

use super::fleet::Fleet;
use super::taking::Blockers;

// Of each square, the set of the shuttles that are on it. Memory that is accepted may have two on one. The table is written
// where it stands, since one that is answered is copied.
fn stand(fleet: &Fleet, table: &mut [u16; 4096])
    requires { (c : ℕ) → slice_index table.old c ≡ 0 }
    ensures { (c j : ℕ) → has (slice_index table.new c) j
        ≡ (nat_lt j fleet.now.count && (slice_index_or fleet.now.shuttles j nobody).at == c) }
{
    for (j, shuttle) in fleet.shuttles().iter().enumerate() {
        table[shuttle.at as usize] |= 1u16 << j;
    }
}

// The set of the shuttles that are on one of these squares.
fn met_on(table: &[u16; 4096], route: &[u16]) -> u16
    requires { every (λ c. nat_lt c 4096) route.now ≡ true }
    ensures { (j : ℕ) → has result j ≡ met table.now j route.now }
{
    let mut all: u16 = 0;
    for c in route {
        all |= table[*c as usize];
    }
    all
}

// Of each shuttle, the set of those that are on a square that it has still to go over: one pass over a table, and one
// over what is left. The part of memory that is one route is handed on, a form of the project (docs/DECISIONS.md).
pub fn blockers(fleet: &Fleet) -> Blockers
    ensures count { result.count ≡ fleet.now.count }
    ensures blocked { let shuttle = fleet_of fleet.now.shuttles fleet.now.memory.now in
        (i j : ℕ) → i < fleet.now.count → has (slice_index result.sets i) j
        ≡ (nat_lt j fleet.now.count && among (shuttle j).at (shuttle i).route) }
{
    let mut table = [0u16; 4096];
    stand(fleet, &mut table);
    let mut sets = [0u16; 16];
    // by its number, since after a `zip` of `iter_mut` nothing is known of what was written
    for (i, shuttle) in fleet.shuttles().iter().enumerate() {
        let from = shuttle.from as usize;
        let to = from + shuttle.left as usize;
        sets[i] = met_on(&table, &fleet.memory[from..to]);
    }
    Blockers {
        sets,
        count: fleet.count,
    }
}
