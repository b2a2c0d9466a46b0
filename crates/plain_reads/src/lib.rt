//! What a text answers to the reads of a snapshot, worked out plainly: it shares no layer and no search with the code that
//! answers a run.
//!
//! A literal is looked for at each offset in turn. A pattern's hits are those of its matcher, turned from byte offsets into
//! points.
#![tactic(auto)]

mod find;
mod length;
mod pattern;
mod place;
mod reads;

pub use pattern::answer_pattern;
pub use reads::answer;
