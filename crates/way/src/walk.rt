// The walk along the distances of a leg.
use super::leg::Leg;
use super::sizes::{Route, Table};
use field::Direction;

impl Leg<'_> {
    ghost use Rattle.std.specs.Prelude.{◌+◌, ◌≤◌, length};
    ghost use Rattle.ways.specs.Distances.{distance_in};
    ghost use Rattle.way.specs.Table.{Measured, Standing, Nears, Written};

    // The first square beside this one, by right, down, left, up, that is one nearer to the goal.
    fn nearer(&self, distances: &Table, square: u16) -> u16
        requires { Standing self.now distances.now square }
        ensures { Nears self.now distances.now square result }
    {
        let wanted = distances[square as usize] - 1;
        for direction in Direction::ALL {
            if let Some(to) = self.field.next(square, direction)
                && distances[to as usize] == wanted
            {
                return to;
            }
        }
        unreachable!()
    }

    // Adds the squares of the leg to the route.
    pub fn walk(&self, distances: &Table, made: &mut Route)
        requires measured { Measured self.now distances.now }
        requires room { length made.old.items + distance_in distances.now self.now.start ≤ 256 }
        ensures { Written self.now distances.now made.old.items made.new.items }
    {
        let mut square = self.start;
        // it counts nothing: an iterator of squares would be this loop over again
        while square != self.goal {
            square = self.nearer(distances, square);
            made.push(square);
        }
    }
}
