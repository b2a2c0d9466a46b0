//! How many units a text has.
ghost use Rattle.std.specs.Prelude.{◌≡◌, length};
ghost use Rattle.points.specs.Text.{utf16_of};

/// The UTF-16 units of a text. It takes no memory.
pub fn units_of(text: &str) -> usize
    ensures { result ≡ length (utf16_of text.now) }
{
    if text.is_ascii() {
        return text.len();
    }
    count_units(text)
}

// The units, character by character.
fn count_units(text: &str) -> usize
    ensures { result ≡ length (utf16_of text.now) }
{
    let mut units = 0;
    for c in text.chars() {
        units += c.len_utf16();
    }
    units
}
