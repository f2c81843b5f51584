// Why a row of squares is no route.
ghost use Rattle.std.specs.Prelude.{Some};
ghost use Rattle.route.specs.Judged.{fault_text};

use std::error::Error;
use std::fmt;

#[derive(Clone, Copy, PartialEq, Eq, Debug)]
pub enum Fault {
    // The first step, from 0, that may not be made.
    WrongAt(usize),
    // Each of its steps may be made, so many, and it ends outside the bay.
    OutsideAfter(usize),
}

impl fmt::Display for Fault {
    ghost output = { λ w. Some (fault_text w) };

    fn fmt<W: fmt::Write>(&self, f: &mut fmt::Formatter<W>) -> fmt::Result {
        match *self {
            Fault::WrongAt(step) => write!(f, "{step}"),
            Fault::OutsideAfter(steps) => write!(f, "{steps}"),
        }
    }
}

impl Error for Fault {}
