// A way leg by leg.
ghost use Rattle.std.specs.Prelude.{◌≡◌, ℕ, ◌*◌, ◌<◌, length, slice_index};
ghost use Rattle.ways.specs.Good.{final};
ghost use Rattle.way.specs.Lead.{Leads};

use super::ground::open_ground;
use super::leg::Leg;
use super::sizes::{Route, SHUT, SQUARES};
use field::Field;

// Whether nothing but the goal itself is left after it.
fn is_last(goal: u16, left: &[u16]) -> bool
    ensures { result ≡ final goal left.now }
{
    left.iter().all(|next| *next == goal)
}

impl Leg<'_> {
    ghost use Rattle.way.specs.Lead.{Driven};

    // Adds the squares of the leg to the route; nothing if no way leads to the goal, or none with few enough squares.
    fn drive(&self, made: &mut Route) -> Option<()>
        ensures { Driven self.now made.old.items made.new.items result }
    {
        let mut distances = *self.ground;
        let distance = self.measure(&mut distances)?;
        if distance as usize > made.remaining_capacity() {
            return None;
        }
        self.walk(&distances, made);
        Some(())
    }
}

// The way from a square through a row of goals; nothing if there is none with few enough squares.
pub fn lead(field: &Field, from: u16, goals: &[u16]) -> Option<Route>
    requires start { from < field.now.across * field.now.down }
    requires some { 0 < length goals.now }
    requires inside { (k : ℕ) → k < length goals.now → slice_index goals.now k < field.now.across * field.now.down }
    ensures { Leads field.now from goals.now result }
{
    let mut ground = [SHUT; SQUARES];
    open_ground(field, &mut ground);
    let mut made = Route::new();
    let mut at = from;
    for (k, goal) in goals.iter().enumerate() {
        if *goal != at {
            let leg = Leg {
                field: *field,
                ground: &ground,
                start: at,
                goal: *goal,
                last: is_last(*goal, &goals[k + 1..]),
            };
            leg.drive(&mut made)?;
            at = *goal;
        }
    }
    Some(made)
}
