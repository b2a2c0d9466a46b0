//! Marks: ranges of a text with ids that stay right while the text changes, and which of them a
//! change hits.
//!
//! The index is a list of at most a million marks in rising order of ids. It holds no text: each
//! change is told to it as a start and two extents. Points count rows and UTF-16 units, from 0.
#![tactic(auto)]

mod edits;
mod finds;
mod fits;
mod hits;
mod index;
pub mod laws;
mod movement;
mod refusal;
mod search;
mod wanted;

pub use index::MarkerIndex;
pub use points::{HitCounts, Hits, Ids, MAX_MARKS, MarkOrder};
pub use refusal::{MarkUnknown, MarkerRefusal};
