//! From a script to its text.
ghost use Rattle.std.specs.Prelude.{◌≡◌, true, Some, IfOk, OnOk};
ghost use Rattle.script.specs.ScriptDocument.{document, script_in};
ghost use Rattle.script.specs.ScriptValue.{opening_value, script_value, BreaksNoRule, is_built};
ghost use Rattle.script.specs.Written.{WritesValue};
ghost use Rattle.script_writer.specs.ScriptText.{script_text};

use crate::parts::{Parts, encoding_word};
use json::Writer;
use machine::{Opening, Script};
use points::NoMemory;
use script::values::{HasValue, document_bytes, write_one, write_three, write_two};
use std::alloc::{AllocError, Global};

// What a script opens with.
#[derive(Drop)]
struct Opened<'a> {
    of: &'a Opening,
}

impl HasValue for Opened<'_> {
    ghost json = { λ opened. opening_value opened.of.now };

    fn write(&self, out: &mut Writer) -> Result<(), AllocError> {
        match self.of {
            Opening::Text { text } => write_one("text", text, out),
            Opening::File { name, encoding } => {
                let word = encoding_word(*encoding);
                write_two("encoding", &word, "file", name, out)
            }
        }
    }
}

// The whole script.
#[derive(Drop)]
struct Whole<'a> {
    of: &'a Script,
}

impl HasValue for Whole<'_> {
    ghost json = { λ whole. script_value whole.of.now };

    fn write(&self, out: &mut Writer) -> Result<(), AllocError> {
        let script = self.of;
        write_three(
            "open",
            &Opened {
                of: &script.opening,
            },
            "sessions",
            &Parts {
                of: &script.sessions,
            },
            "version",
            &script.version,
            out,
        )
    }
}

/// The text of a script: its compact JSON text, and one line feed. It is a document with the script's value, so
/// `read_script` gives the script back where it breaks no rule and is of what is built.
#[tactic(auto, using(crate::proofs::Depths::script_value_depth, crate::proofs::Again::script_again))]
pub fn script_bytes(alloc: Global, script: &Script) -> Result<Vec<u8>, NoMemory>
    ensures text { IfOk result (λ b. b.items ≡ script_text script.now) }
    ensures reads_back { IfOk result (λ b. document b.items ≡ Some (script_value script.now)) }
    ensures again { is_built script.now ≡ true → BreaksNoRule script.now →
        IfOk result (λ b. script_in b.items ≡ Some script.now) }
{
    document_bytes(alloc, &Whole { of: script })
}
