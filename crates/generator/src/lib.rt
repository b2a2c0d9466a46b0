//! Scripts that are made from a number, so that long runs need no file; and the five numbers that sum a transcript up.
//!
//! A made script edits, takes snapshots, sends them to the workers and squashes. What is drawn for it comes from one state,
//! which each draw moves on (`specs/Generator`).
#![tactic(auto)]

mod block;
mod drawing;
pub mod laws;
mod make;
mod measure;
mod numbers;
mod sums;

pub use make::make_script;
pub use numbers::Summary;
pub use sums::summary;
