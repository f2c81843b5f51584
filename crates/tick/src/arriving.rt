// The arrivals of a tick.
ghost use Rattle.std.specs.Prelude.{◌≡◌, length};
ghost use Rattle.tick.specs.Coming.{CameIn};

use hall::take_arrival;
use memory::Hall;

// Makes the arrivals that are due, in the order of the shuttles; one that does not move stays as it is.
pub fn make_arrivals(hall: &mut Hall, due: &[u8])
    requires { length due.now ≡ length hall.old.field.bays.now }
    ensures { CameIn hall.old hall.new due.now (length hall.old.field.bays.now) }
{
    for (i, mark) in due.iter().enumerate() {
        if *mark == 1 {
            let _comes = take_arrival(hall, i);
        }
    }
}
