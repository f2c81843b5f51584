// Texts: lines and words, fields, routes and commands, and what is printed.
#![tactic(auto)]

mod answers;
mod failure;
mod field_text;
mod fields;
mod gathering;
mod judging;
mod lines;
mod ways;

pub use answers::{Answer, Judgement};
pub use failure::Failure;
pub use field_text::FieldText;
pub use fields::{is_bay_letter, read_field, rows_in};
pub use gathering::gather;
pub use judging::judge_line;
pub use lines::{lines_of, words_of};
pub use ways::{read_ways, squares_on};
