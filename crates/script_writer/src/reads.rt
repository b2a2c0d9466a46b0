//! The reads of a snapshot as JSON: one form each.
ghost use Rattle.std.specs.Prelude.{OnOk};
ghost use Rattle.machine.specs.declared.reads.Read.TheVariants as read;
ghost use Rattle.script.specs.ScriptValue.{read_value};
ghost use Rattle.script.specs.Written.{WritesValue};

use crate::parts::{Ends, Part, Word, encoding_word};
use json::Writer;
use machine::{Encoding, Read, Text};
use script::values::{write_one, write_three};
use std::alloc::AllocError;

// A text written to a file.
fn write_save(name: &Text, encoding: Encoding, out: &mut Writer) -> Result<(), AllocError>
    ensures { OnOk result (WritesValue out.old out.new (read_value (read.Save name.now encoding))) }
{
    let word = encoding_word(encoding);
    write_three(
        "encoding",
        &word,
        "get",
        &Word { text: "save" },
        "name",
        name,
        out,
    )
}

impl Part for Read {
    ghost value = { read_value };

    fn write_part(&self, out: &mut Writer) -> Result<(), AllocError> {
        match self {
            Read::Size => write_one("get", &Word { text: "size" }, out),
            Read::Text { range, limit } => write_three(
                "get",
                &Word { text: "text" },
                "limit",
                limit,
                "range",
                &Ends { of: range },
                out,
            ),
            Read::Find { needle, limit } => write_three(
                "get",
                &Word { text: "find" },
                "limit",
                limit,
                "needle",
                needle,
                out,
            ),
            Read::Pattern { pattern, limit } => write_three(
                "get",
                &Word { text: "pattern" },
                "limit",
                limit,
                "pattern",
                pattern,
                out,
            ),
            Read::Save { name, encoding } => write_save(name, *encoding, out),
        }
    }
}
