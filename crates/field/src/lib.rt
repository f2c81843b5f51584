// Fields, squares, bays and directions, over walls and bays that are lent; and why a call is turned away.
#![tactic(auto)]

mod bays;
mod direction;
mod field;
mod largest;
mod refusal;
mod squares;

pub use direction::{Direction, OtherLetter};
pub use field::Field;
pub use largest::{are_marks, are_squares};
pub use refusal::Refusal;
pub use squares::is_field;
