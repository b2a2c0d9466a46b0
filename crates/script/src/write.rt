//! From a transcript to its text.
ghost use Rattle.std.specs.Prelude.{◌≡◌, Some, IfOk};
ghost use Rattle.script.specs.ScriptDocument.{document};
ghost use Rattle.script.specs.TranscriptDocument.{end_value, transcript_value, transcript_text};

use crate::values::{HasValue, document_bytes, write_three, write_two};
use json::Writer;
use machine::{Transcript, TranscriptEnd};
use points::NoMemory;
use std::alloc::{AllocError, Global};

impl HasValue for TranscriptEnd {
    ghost json = { end_value };

    fn write(&self, out: &mut Writer) -> Result<(), AllocError> {
        write_two("count", &self.count, "text", &self.text, out)
    }
}

impl HasValue for Transcript {
    ghost json = { transcript_value };

    fn write(&self, out: &mut Writer) -> Result<(), AllocError> {
        write_three(
            "end",
            &self.end,
            "sessions",
            &self.sessions,
            "version",
            &self.version,
            out,
        )
    }
}

/// The text of a transcript: its compact JSON text, and one line feed. It reads back as the transcript's value.
#[tactic(auto, using(crate::proofs::ReadBack::transcript_value_depth), unfolding(crate::specs::TranscriptDocument::transcript_text))]
pub fn transcript_bytes(alloc: Global, transcript: &Transcript) -> Result<Vec<u8>, NoMemory>
    ensures text { IfOk result (λ b. b.items ≡ transcript_text transcript.now) }
    ensures reads_back { IfOk result (λ b. document b.items ≡ Some (transcript_value transcript.now)) }
{
    document_bytes(alloc, transcript)
}
