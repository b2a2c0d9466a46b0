//! The check of a transcript: whether it is lawful for its script, and where it first fails.
//!
//! - The form is tested first (`form`, `forms`, `order`, `rising`).
//! - One pass makes each call again on the plain machine and compares its reply; where the machine has the text of a version, the
//!   answers through the takes that show it are judged (`pass`, `replay`).
//! - The first take that isn't right is the place, and then comes the end (`check`).
#![tactic(auto)]

mod calls;
mod check;
mod form;
mod forms;
mod order;
mod pass;
mod replay;
mod rising;

pub use check::{is_small, lawful};
