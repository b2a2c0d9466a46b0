//! Transcripts read from JSON: which bytes are a transcript, and which transcript they are.
//!
//! The JSON value of each transcript is `script`'s. Here stand what a value reads as (`specs/Reading`), and what
//! a reader of transcripts has to answer (`specs/Exact`).
#![tactic(auto)]

mod from_value;
mod misfit;
mod read;
mod replies;

pub use read::read_transcript;
