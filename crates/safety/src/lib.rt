// Whether all is safe, asked of the shuttles that memory has.
#![tactic(auto)]

mod blocking;
mod fleet;
mod safe;
mod taking;

pub use fleet::Fleet;
pub use memory::write_numbers;
