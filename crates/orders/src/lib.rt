// Orders: a route is judged, and written into the part of memory that is lent for it.
#![tactic(auto)]

mod orders;

pub use orders::take_order;
