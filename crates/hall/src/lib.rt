// What happens in the hall, one event after the other, over memory that is lent.
#![tactic(auto)]

mod calling;
mod done;
mod entry;
mod event;
mod starting;
mod taking;

pub use calling::call;
pub use done::Done;
pub use entry::happen;
pub use event::Event;
// by the place at which a shuttle's numbers begin
pub use memory::write_step_at as write_step;
pub use starting::start;
pub use taking::take_arrival;
