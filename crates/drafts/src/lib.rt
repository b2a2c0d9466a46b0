//! The sinks of a run's saves, one for each of some names: they are made together, and later kept together or given up
//! together.
//!
//! Whatever call of the folder fails, no sink is left behind: each is kept or discarded.
#![tactic(auto)]

mod discard;
mod keep;
mod make;
#[cfg(test)]
mod tests;

pub use discard::discard_all;
pub use keep::keep_all;
pub use make::make_all;
