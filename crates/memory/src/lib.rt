// Memory that is lent with a field: whether it is accepted, what is read of each shuttle, and what is written. No layer
// above this crate reads or writes a number of a shuttle by its place.
#![tactic(auto)]

mod accepted;
mod hall;
mod layout;
mod numbers;
mod shuttle;
mod write;

pub use accepted::is_memory;
pub use hall::Hall;
pub use layout::NUMBERS;
pub use numbers::write_numbers;
pub use shuttle::Shuttle;
pub use write::{write_home, write_step, write_step_at};
