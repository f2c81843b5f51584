// Routes, judged step by step.
#![tactic(auto)]

mod fault;
mod steps;

pub use fault::Fault;
pub use steps::judge;
