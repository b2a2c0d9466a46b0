//! How many bytes a text has in an encoding.
ghost use Rattle.std.specs.Prelude.{◌≡◌, length, IfOk};
ghost use Rattle.std.specs.Char.Utf16.{utf16_lossy_chars};
ghost use Rattle.std.specs.Str.{chars};
ghost use Rattle.machine.specs.Encodings.{encode};

use line_text::LineText;
use machine::Encoding;
use points::NoMemory;

/// How many bytes the text has in an encoding.
pub(crate) fn encoded_len(text: &LineText, encoding: Encoding) -> Result<u64, NoMemory>
    ensures { IfOk result (λ n. n ≡ length (encode encoding text.now)) }
{
    match encoding {
        Encoding::Utf8 => Ok(text.to_text()?.as_str().len() as u64),
        Encoding::Utf16Le | Encoding::Utf16Be => Ok(text.len() as u64 * 2),
        Encoding::Latin1 => characters(text),
    }
}

// How many characters the text has.
fn characters(text: &LineText) -> Result<u64, NoMemory>
    ensures { IfOk result (λ n. n ≡ length (utf16_lossy_chars text.now)) }
{
    let copy = text.to_text()?;
    Ok(characters_in(copy.as_str()) as u64)
}

fn characters_in(text: &str) -> usize
    ensures { result ≡ length (chars text.now) }
{
    text.chars().count()
}
