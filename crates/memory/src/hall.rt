// A field, and the memory that is lent with it. That a shuttle is there is asked of each method: a type for such a number would
// have to hold the hall.
ghost use Rattle.std.specs.Prelude.{◌≡◌, true};
ghost use Rattle.rules.specs.Memory.{memory_ok};
ghost use Rattle.field.specs.Model.{numbers_in};

use super::shuttle::Shuttle;
use super::write;
use field::Field;

#[derive(Drop)]
pub struct Hall<'a> {
    pub field: Field<'a, 'a>,
    pub memory: &'a mut [u16],
    ghost accepted: { memory_ok (numbers_in field) memory.now ≡ true },
}

impl Hall<'_> {
    ghost use Rattle.std.specs.Prelude.{◌*◌, ◌<◌, ◌≤◌, false, length, nat_lt};
    ghost use Rattle.rules.specs.Tests.{every, is_empty};
    ghost use Rattle.rules.specs.Shuttle.{ordered, stepped, arrived};
    ghost use Rattle.rules.specs.Memory.{shuttle_in};
    ghost use Rattle.memory.specs.Shuttles.{kept_at};
    ghost use Rattle.memory.specs.Halls.{Writes};

    // Shuttle i.
    pub fn shuttle(&self, i: usize) -> Shuttle
        requires { i < length self.now.field.bays.now }
        ensures { result ≡ kept_at self.now.memory.now i }
    {
        Shuttle::read(self.memory, i)
    }

    // Writes the route that shuttle i is given where it stands.
    pub fn write_order(&mut self, i: usize, route: &[u16])
        requires there { i < length self.old.field.bays.now }
        requires short { length route.now ≤ 256 }
        requires over { every (λ c. nat_lt c (self.old.field.across * self.old.field.down)) route.now ≡ true }
        ensures { Writes self.old self.new i (ordered (shuttle_in self.old.memory.now i) route.now) }
    {
        write::write_order(self.memory, i, route);
    }

    // Writes the step of shuttle i to its next square.
    pub fn write_step(&mut self, i: usize)
        requires there { i < length self.old.field.bays.now }
        requires some { is_empty (shuttle_in self.old.memory.now i).route ≡ false }
        ensures { Writes self.old self.new i (stepped (shuttle_in self.old.memory.now i)) }
    {
        write::write_step(self.memory, i);
    }

    // Writes the arrival of shuttle i: it stands where it came to.
    pub fn write_arrival(&mut self, i: usize)
        requires { i < length self.old.field.bays.now }
        ensures { Writes self.old self.new i (arrived (shuttle_in self.old.memory.now i)) }
    {
        write::write_arrival(self.memory, i);
    }
}
