// A tick: each arrival that is due is made, and one step is granted, of the one that has waited longest.
#![tactic(auto)]

mod arriving;
mod choosing;
mod entry;
mod lent;
mod theorem;
mod waiting;

pub use entry::tick;
pub use theorem::memory_comes_home_stands;
