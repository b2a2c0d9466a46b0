//! From bytes to a transcript.
ghost use Rattle.std.specs.Prelude.{◌≡◌, IfOk};
ghost use Rattle.serde_json.specs.View.{view};
ghost use Rattle.transcripts.specs.Reading.{Gives, end_of, version_one, transcript_of};
ghost use Rattle.transcripts.specs.Exact.{IsReadOf};

use crate::from_value::{FromValue, member_count, member_of};
use crate::misfit::Misfit;
use machine::{Transcript, TranscriptEnd};
use points::NoMemory;
use serde_json::Value;
use std::alloc::Global;

impl FromValue for TranscriptEnd {
    ghost reads = { end_of };

    #[tactic(auto, unfolding(crate::specs::Reading::end_of))]
    fn from_value(alloc: Global, value: &Value) -> Result<Self, Misfit> {
        if member_count(value) != 2 {
            return Err(Misfit::Form);
        }
        let count = member_of(alloc, "count", value)?;
        let text = member_of(alloc, "text", value)?;
        Ok(TranscriptEnd { count, text })
    }
}

// The version, which is 1.
fn version_one(value: &Value) -> Result<u32, Misfit>
    ensures { Gives result (version_one (view value.now)) }
{
    match value.as_u64() {
        Some(1) => Ok(1),
        _ => Err(Misfit::Form),
    }
}

impl FromValue for Transcript {
    ghost reads = { transcript_of };

    #[tactic(auto, unfolding(crate::specs::Reading::transcript_of))]
    fn from_value(alloc: Global, value: &Value) -> Result<Self, Misfit> {
        if member_count(value) != 3 {
            return Err(Misfit::Form);
        }
        let version = version_one(value.get("version").ok_or(Misfit::Form)?)?;
        let end = member_of(alloc, "end", value)?;
        let sessions = member_of(alloc, "sessions", value)?;
        Ok(Transcript {
            end,
            sessions,
            version,
        })
    }
}

/// Reads a transcript: one JSON value in UTF-8, with or without a line feed behind it. `None` where it is that of no
/// transcript: a key is missing or unknown, a value has another kind, a number is out of its bounds.
pub fn read_transcript(alloc: Global, bytes: &[u8]) -> Result<Option<Transcript>, NoMemory>
    ensures { IfOk result (IsReadOf bytes.now) }
{
    let value = match Value::from_slice(alloc, bytes) {
        Ok(value) => value,
        Err(error) if error.is_memory() => return Err(NoMemory),
        Err(_) => return Ok(None),
    };
    match Transcript::from_value(alloc, &value) {
        Ok(transcript) => Ok(Some(transcript)),
        Err(Misfit::Form) => Ok(None),
        Err(Misfit::NoMemory) => Err(NoMemory),
    }
}
