//! The plain machine: what a plain string, with marks, steps back and watchers, answers to each call; the
//! commands of a script and the replies of a transcript as data; and which transcripts of a script are lawful.
//!
//! The code here is the data types alone, with the laws. The meaning stands in `specs/`: the machine's state
//! and calls (`Machine`), what they answer and what a command and a read ask (`Answers`), lawful transcripts
//! (`Lawful`), where one first fails (`FirstFault`), what a plain string answers to one session (`Plain`), histories of many callers (`Histories`) and the
//! laws (`Laws`).
#![tactic(auto)]

mod command;
pub mod laws;
mod reads;
mod reply;
mod sequence;
mod text;
mod verdict;

pub use command::{BatchEdit, Command, How, Opening, Script};
pub use reads::{Encoding, Read, ReadAnswer};
pub use reply::{CallRefusal, HitNumbers, Reply, ReplyPart, Span, Transcript, TranscriptEnd};
pub use sequence::Sequence;
pub use text::Text;
pub use verdict::{Place, Verdict};
