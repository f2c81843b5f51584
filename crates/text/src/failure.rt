// Why a text is not read, or a call not answered: it is turned away, or there is no memory left.
ghost use Rattle.std.specs.Prelude.{◌≡◌, Some};
ghost use Rattle.text.specs.declared.failure.Failure.TheVariants.{Refused, Memory};
ghost use Rattle.text.specs.Printed.{failure_text};

use field::Refusal;
use std::alloc::{AllocError, AllocFailed};
use std::error::Error;
use std::fmt;

#[derive(Clone, Copy, PartialEq, Eq, Debug)]
pub enum Failure {
    Refused(Refusal),
    Memory,
}

// In words, as the library tells want of memory; a refusal alone is told by its number.
impl fmt::Display for Failure {
    ghost output = { λ f. Some (failure_text f) };

    fn fmt<W: fmt::Write>(&self, f: &mut fmt::Formatter<W>) -> fmt::Result {
        let words = match *self {
            Failure::Refused(Refusal::Field) => {
                "the field has no square, or more than 64 across or down"
            }
            Failure::Refused(Refusal::Memory) => "the memory is not accepted",
            Failure::Refused(Refusal::Event) => {
                "there is no such shuttle, or the route has more than 256 letters"
            }
            Failure::Refused(Refusal::Text(line)) => {
                return write!(f, "line {line}, counted from 0, can't be read");
            }
            Failure::Refused(Refusal::Way) => {
                "a square is outside the field, or there are more than eight"
            }
            Failure::Refused(Refusal::Tick) => "the waits or the marks of a tick are not accepted",
            Failure::Memory => "memory allocation failed",
        };
        f.write_str(words)
    }
}

impl Error for Failure {}

impl From<Refusal> for Failure {
    ghost from_gives = { λ refusal f. f ≡ Refused refusal };

    fn from(refusal: Refusal) -> Failure {
        Failure::Refused(refusal)
    }
}

impl From<AllocError> for Failure {
    ghost from_gives = { λ _ f. f ≡ Memory };

    fn from(_error: AllocError) -> Failure {
        Failure::Memory
    }
}

impl<T: Drop> From<AllocFailed<T>> for Failure {
    ghost from_gives = { λ _ f. f ≡ Memory };

    fn from(_failed: AllocFailed<T>) -> Failure {
        Failure::Memory
    }
}
