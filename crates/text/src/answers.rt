// What is printed of a route that is judged, and of an event.
ghost use Rattle.std.specs.Prelude.{Some};
ghost use Rattle.text.specs.Printed.{judgement_text, answer_text};

use route::Fault;
use std::fmt;

// Whether a line is a route, and if not, why; a type of its own, since what is printed of a `Result` is the library's to say.
#[derive(Clone, Copy, PartialEq, Eq, Debug)]
pub struct Judgement(pub Result<(), Fault>);

// Whether an event happened, where it is not turned away; a type of its own, since a `bool` is printed in other words.
#[derive(Clone, Copy, PartialEq, Eq, Debug)]
pub enum Answer {
    Granted,
    Not,
}

impl fmt::Display for Judgement {
    ghost output = { λ j. Some (judgement_text j) };

    fn fmt<W: fmt::Write>(&self, f: &mut fmt::Formatter<W>) -> fmt::Result {
        match self.0 {
            Ok(()) => f.write_str("route ok"),
            Err(fault) => write!(f, "{fault}"),
        }
    }
}

impl fmt::Display for Answer {
    ghost output = { λ a. Some (answer_text a) };

    fn fmt<W: fmt::Write>(&self, f: &mut fmt::Formatter<W>) -> fmt::Result {
        f.write_str(match *self {
            Answer::Granted => "granted",
            Answer::Not => "not",
        })
    }
}
