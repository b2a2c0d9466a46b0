//! Scripts written as JSON: the text of a script, which the reader of scripts reads back as the script.
//!
//! The JSON value of each script is `script`'s (`ScriptValue`). Here each part of a script is written; the types of
//! a script are another crate's, and `script`'s trait `HasValue` too, so a part stands in a type of this crate.
#![tactic(auto)]

mod commands;
mod edits;
mod parts;
mod reads;
mod write;

pub use write::script_bytes;
