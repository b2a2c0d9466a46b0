//! The steps that an undo takes back and a redo makes again.
//!
//! A step is a change of the text. The past keeps the latest `MAX_STEPS`, and what was taken back goes to the future
//! until a new step empties it, so both together have at most so many. They are two rings whose room is taken at the
//! beginning. What a step holds is never looked into.
#![tactic(auto)]

mod steps;

pub use steps::Steps;
