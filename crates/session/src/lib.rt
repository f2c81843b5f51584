// A hall that is played: commands, the hall that they change, ways and ticks in it, and its picture.
#![tactic(auto)]

mod clock;
mod commands;
mod leading;
mod numbers;
mod picture;
mod playing;
mod state;
mod ticking;

pub use clock::Clock;
pub use commands::{Command, read_command};
pub use numbers::{Place, Ticks};
pub use picture::letter_of;
pub use state::Session;
