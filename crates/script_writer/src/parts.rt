//! Parts of a script as JSON: words, ranges, and lists of parts.
ghost use Rattle.std.specs.Prelude.{◌≡◌, OnOk};
ghost use Rattle.serde_json.specs.Data.{Data, string};
ghost use Rattle.script.specs.TranscriptDocument.{list_value};
ghost use Rattle.script.specs.ScriptValue.{range_value, encoding_word};
ghost use Rattle.script.specs.Written.{WritesValue};

use json::Writer;
use machine::{Encoding, Sequence};
use points::Range;
use script::values::{HasValue, write_list};
use std::alloc::AllocError;

// A word of a script's own, such as that of a command.
#[derive(Drop)]
pub(crate) struct Word {
    pub text: &'static str,
}

impl HasValue for Word {
    ghost json = { λ word. string word.text.now };

    fn write(&self, out: &mut Writer) -> Result<(), AllocError> {
        out.string(self.text)
    }
}

// The word of an encoding.
pub(crate) fn encoding_word(encoding: Encoding) -> Word
    ensures { result.text.now ≡ encoding_word encoding }
{
    let text = match encoding {
        Encoding::Utf8 => "utf8",
        Encoding::Utf16Le => "utf16le",
        Encoding::Utf16Be => "utf16be",
        Encoding::Latin1 => "latin1",
    };
    Word { text }
}

// A range, as four numbers.
#[derive(Drop)]
pub(crate) struct Ends<'a> {
    pub of: &'a Range,
}

impl HasValue for Ends<'_> {
    ghost json = { λ ends. range_value ends.of.now };

    fn write(&self, out: &mut Writer) -> Result<(), AllocError> {
        let Range { start, end } = *self.of;
        write_list(&[start.row, start.column, end.row, end.column], out)
    }
}

// ---- lists

// A part of a script that stands in lists.
pub(crate) trait Part {
    // The JSON value.
    ghost value: { Self → Data };

    fn write_part(&self, out: &mut Writer) -> Result<(), AllocError>
        ensures { OnOk result (WritesValue out.old out.new (value self.now)) };
}

// A list of parts, with the value of each.
fn write_parts<T: Part>(parts: &[T], out: &mut Writer) -> Result<(), AllocError>
    ensures { OnOk result (WritesValue out.old out.new (list_value T.Part.value parts.now)) }
{
    out.begin_array()?;
    for part in parts {
        part.write_part(out)?;
    }
    out.end_array()
}

// The parts in a list.
#[derive(Drop)]
pub(crate) struct Parts<'a, T> {
    pub of: &'a Sequence<T>,
}

impl<T: Part> HasValue for Parts<'_, T> {
    ghost json = { λ parts. list_value T.Part.value parts.of.now };

    fn write(&self, out: &mut Writer) -> Result<(), AllocError> {
        write_parts(self.of.as_slice(), out)
    }
}
