//! The UTF-16 encoding of a text: counted before memory is taken, and written where it belongs.
ghost use Rattle.std.specs.Prelude.{◌≡◌, ◌+◌, ◌≤◌, ◌++◌, length, take, drop, count_by, SomeIff};
ghost use Rattle.std.specs.Char.Escape.{encode_utf16};
ghost use Rattle.points.specs.Text.{is_lf, utf16_of};
ghost use Rattle.line_text.specs.Size.{size_of};

/// How large a text is in UTF-16.
#[derive(Clone, Copy, PartialEq, Eq)]
pub(crate) struct Size {
    /// Its units.
    pub(crate) units: usize,
    /// The line feeds among them.
    pub(crate) feeds: usize,
}

/// The size of `text`, unless it has more than `room` units. It reads no further than that.
pub(crate) fn size_within(text: &str, room: usize) -> Option<Size>
    ensures { SomeIff result (length (utf16_of text.now) ≤ room) (size_of (utf16_of text.now)) }
{
    if text.is_ascii() {
        size_by_bytes(text.as_bytes(), room)
    } else {
        size_by_chars(text, room)
    }
}

// The size of a text whose units are its bytes.
fn size_by_bytes(bytes: &[u8], room: usize) -> Option<Size>
    ensures { SomeIff result (length bytes.now ≤ room) (size_of bytes.now) }
{
    if room < bytes.len() {
        return None;
    }
    Some(Size {
        units: bytes.len(),
        feeds: bytes.iter().filter(|byte| **byte == b'\n').count(),
    })
}

// The size, character by character.
fn size_by_chars(text: &str, room: usize) -> Option<Size>
    ensures { SomeIff result (length (utf16_of text.now) ≤ room) (size_of (utf16_of text.now)) }
{
    let mut size = Size { units: 0, feeds: 0 };
    for c in text.chars() {
        if room - size.units < c.len_utf16() {
            return None;
        }
        size.units += c.len_utf16();
        if c == '\n' {
            size.feeds += 1;
        }
    }
    Some(size)
}

/// Writes the units of `text` into `into`, which has as many places.
pub(crate) fn write_units(into: &mut [u16], text: &str)
    requires { length into.old ≡ length (utf16_of text.now) }
    ensures { into.new ≡ utf16_of text.now }
{
    if text.is_ascii() {
        write_bytes(into, text.as_bytes());
    } else {
        write_chars(into, text);
    }
}

// Writes the units of a text whose units are its bytes.
fn write_bytes(into: &mut [u16], bytes: &[u8])
    requires { length into.old ≡ length bytes.now }
    ensures { into.new ≡ bytes.now }
{
    for at in 0..bytes.len() {
        into[at] = bytes[at] as u16;
    }
}

// Writes the units, character by character.
fn write_chars(into: &mut [u16], text: &str)
    requires { length into.old ≡ length (utf16_of text.now) }
    ensures { into.new ≡ utf16_of text.now }
{
    let mut at = 0;
    for c in text.chars() {
        at = write_char(into, at, c);
    }
}

// Writes the one or two units of `c` from `at` on, and says where they end.
fn write_char(into: &mut [u16], at: usize, c: char) -> usize
    requires { at + length (encode_utf16 c) ≤ length into.old }
    ensures end { result ≡ at + length (encode_utf16 c) }
    ensures written { into.new ≡ take at into.old ++ encode_utf16 c ++ drop result into.old }
{
    let mut pair = [0; 2];
    let units = c.encode_utf16(&mut pair);
    let end = at + units.len();
    into[at..end].copy_from_slice(units);
    end
}
