//! Reads of a text that a reader shows, and their answers: its size, a part of it, the hits of a literal or of a pattern, and a
//! save to a sink.
//!
//! [`answer_all`] answers a list of reads in turn, into a list that has room for the answers. Only a search and a part of the
//! text take memory; an answer for which there is none is `NoMemory`.
#![tactic(auto)]

mod answer;
mod answering;
mod read;

pub use answer::Answer;
pub use answering::{answer_all, find_text, read_text, refuse_all};
pub use read::Read;
