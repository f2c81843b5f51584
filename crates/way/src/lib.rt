// The shortest way of a shuttle through a row of squares and into its bay, the first by right, down, left, up.
#![tactic(auto)]

mod asked;
mod find;
mod ground;
mod leg;
mod legs;
mod sizes;
mod spread;
mod walk;

pub use find::way;
