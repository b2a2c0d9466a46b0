//! Scripts and transcripts as documents: JSON that is read and written.
//!
//! The data stands in `machine`. The meaning stands in `specs/`: the parts of a JSON value (`Parts`), the table of
//! commands and reads (`Rows`), the rules of a script and the first place that breaks one (`Rules`), which bytes
//! are a script (`ScriptDocument`), and the JSON values of scripts and of transcripts (`ScriptValue`,
//! `TranscriptDocument`).
#![tactic(auto)]

mod before;
mod commands;
mod count;
pub mod document_laws;
mod limits;
mod opening;
mod parts;
mod read;
mod reads;
mod refusal;
mod replies;
mod saves;
mod shape;
mod snapshots;
pub mod values;
mod write;

pub use count::units_of;
pub use limits::{
    MAX_COMMANDS, MAX_FINDS, MAX_HITS, MAX_ID, MAX_NAME, MAX_READINGS, MAX_SAVES, MAX_SESSIONS,
    MAX_SHOWN, MAX_WATCHES,
};
pub use machine::{
    BatchEdit, CallRefusal, Command, Encoding, HitNumbers, How, Opening, Read, ReadAnswer, Reply,
    ReplyPart, Script, Sequence, Span, Text, Transcript, TranscriptEnd,
};
pub use read::read_script;
pub use refusal::{ScriptRefusal, ScriptRule};
pub use write::transcript_bytes;
