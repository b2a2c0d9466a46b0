//! Searches of a text that a reader shows: for a literal, and for the hits of any matcher.
//!
//! The text is copied once, as UTF-8 with U+FFFD in place of each surrogate that lacks its partner, and searched there. The
//! hits that are shown are then turned from byte offsets into points, in one pass over the text up to the last of them.
#![tactic(auto)]

mod copy;
mod find;
mod found;
mod place;
mod refusal;

pub use find::{find_literal, find_pattern};
pub use found::{Found, Ranges};
pub use refusal::FindRefusal;
