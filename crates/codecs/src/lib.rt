//! Texts as bytes, and bytes as texts, in four encodings.
//!
//! - [`decode`] reads bytes as a text. What is no character gives U+FFFD.
//! - An [`Encoder`] takes a text unit by unit and writes the bytes of each character into a buffer of fixed room. The
//!   high surrogate of a pair waits in it for the low one, so that a text may come in pieces which part pairs.
//! - [`save`] writes the text of a reader to a sink through an encoder, piece by piece, and takes no memory.
#![tactic(auto)]

mod decoding;
mod encoder;
pub mod laws;
mod saving;

pub use decoding::decode;
pub use encoder::Encoder;
pub use saving::{SaveFault, save};
