// Steps that are granted.
#![tactic(auto)]

mod steps;

pub use steps::is_granted;
