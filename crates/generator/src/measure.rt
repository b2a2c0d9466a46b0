//! How large a text is, character by character, so that it takes no memory.
ghost use Rattle.std.specs.Prelude.{◌≡◌, ◌+◌, length, count_by};
ghost use Rattle.points.specs.Text.{utf16_of, is_lf};

/// The UTF-16 units of a text.
pub(crate) fn units_of(text: &str) -> u64
    ensures { result ≡ length (utf16_of text.now) }
{
    let mut units = 0;
    for c in text.chars() {
        units += c.len_utf16() as u64;
    }
    units
}

/// The rows of a text: one more than its line feeds.
pub(crate) fn rows_of(text: &str) -> u64
    ensures { result ≡ count_by is_lf (utf16_of text.now) + 1 }
{
    let mut rows = 1;
    for c in text.chars() {
        if c == '\n' {
            rows += 1;
        }
    }
    rows
}
