// What both programs share: how they run, the text that they work on, and words for what is wrong.
#![tactic(auto)]

mod input;
mod program;
mod words;

pub use program::{Program, run};
pub use words::{answered, tell, turn_away};
