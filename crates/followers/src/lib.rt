//! What follows a text: marks that move with its changes, steps that can be taken back, and watchers that hear of each
//! change. A change goes through one call, and so does one that takes a step back or makes it again.
//!
//! Contracts say what becomes of the plain machine's marks, steps and watchers.
#![tactic(auto)]

mod followers;
mod replacement;

pub use followers::Followers;
pub use replacement::Replacement;
