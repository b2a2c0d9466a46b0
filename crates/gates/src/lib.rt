//! Gates: what a task goes through before it begins and once it has ended.
//!
//! A program has an [`OpenGate`]. A [`HoldGate`] lets a test hold one task until another has ended, so that the test shows
//! that two tasks were under way at the same time. No contract speaks of a gate: both calls may wait, and they change
//! nothing else.
#![tactic(auto)]

mod gate;
mod hold;

pub use gate::{Gate, OpenGate};
pub use hold::HoldGate;
