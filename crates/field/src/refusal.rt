// Why a call is turned away.
ghost use Rattle.std.specs.Prelude.{◌≡◌, ◌+◌, Some};
ghost use Rattle.field.specs.Refusals.{number_of, refusal_text};

use std::error::Error;
use std::fmt;

// In the order of their numbers, which is the order in which calls are tested.
#[derive(Clone, Copy, PartialEq, Eq, Debug)]
pub enum Refusal {
    // 1: the field.
    Field,
    // 2: memory.
    Memory,
    // 3: the event, or its shuttle.
    Event,
    // 4: a text, at the line of this number.
    Text(u64),
    // 5: what is asked of a way.
    Way,
    // 6: the waits or the marks of a tick.
    Tick,
}

impl Refusal {
    // By name, since a refusal has two numbers: this one, and the one for C.
    pub fn number(self) -> u64
        ensures { result ≡ number_of self }
    {
        match self {
            Refusal::Field => 1,
            Refusal::Memory => 2,
            Refusal::Event => 3,
            Refusal::Text(_) => 4,
            Refusal::Way => 5,
            Refusal::Tick => 6,
        }
    }

    // The answer for C.
    pub fn code(self) -> u64
        ensures { result ≡ 16 + number_of self }
    {
        16 + self.number()
    }
}

impl fmt::Display for Refusal {
    ghost output = { λ r. Some (refusal_text r) };

    fn fmt<W: fmt::Write>(&self, f: &mut fmt::Formatter<W>) -> fmt::Result {
        match *self {
            Refusal::Field => f.write_str("refused 1"),
            Refusal::Memory => f.write_str("refused 2"),
            Refusal::Event => f.write_str("refused 3"),
            Refusal::Text(line) => write!(f, "refused 4 at {line}"),
            Refusal::Way => f.write_str("refused 5"),
            Refusal::Tick => f.write_str("refused 6"),
        }
    }
}

impl Error for Refusal {}
