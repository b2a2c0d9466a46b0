//! Hits as ranges of points: from byte offsets in UTF-8 to rows and columns in UTF-16, in one pass over the text.
ghost use Rattle.std.specs.Prelude.{◌≡◌, ◌*◌, ◌≤◌, length, map, not, count_by, IfOk, IsTrue};
ghost use Rattle.std.specs.List.{suffix_len};
ghost use Rattle.std.specs.Str.{IsCharBoundary};
ghost use Rattle.std.specs.Char.Escape.{encode_utf16};
ghost use Rattle.points.specs.Text.{is_lf, utf16_of};
ghost use Rattle.points.specs.Point.{IsWithin, point_le, traverse};
ghost use Rattle.points.specs.Place.{extent};
ghost use Rattle.machine.specs.Answers.{point_of_byte, span_of_bytes};
ghost use Rattle.outer.specs.Matcher.{AreHits};
ghost use Rattle.search.specs.Answer.{span_of};

use points::{MAX_COORD, NoMemory, Point, Range};
use std::alloc::Global;

/// The ranges of hits in a text.
pub(crate) fn ranges_of(
    alloc: Global,
    text: &str,
    hits: &[(usize, usize)],
) -> Result<Vec<Range>, NoMemory>
    requires sound { AreHits text.now hits.now }
    requires short { length (utf16_of text.now) ≤ MAX_COORD }
    ensures { IfOk result (λ ranges. map span_of ranges.items ≡ map (span_of_bytes text.now) hits.now) }
{
    let mut ranges = Vec::with_capacity(alloc, hits.len())?;
    let mut at = Place {
        byte: 0,
        point: Point { row: 0, column: 0 },
    };
    for (start, end) in hits {
        let first = moved(text, at, *start);
        at = moved(text, first, *end);
        ranges.push(Range::new(first.point, at.point))?;
    }
    Ok(ranges)
}

// A place between characters of a text, known both ways.
#[derive(Clone, Copy)]
struct Place {
    byte: usize,
    point: Point,
}

// The place at the byte offset `to`, which is no earlier than `from`.
fn moved(text: &str, from: Place, to: usize) -> Place
    requires order { from.byte ≤ to }
    requires start { IsCharBoundary text.now from.byte }
    requires end { IsCharBoundary text.now to }
    requires short { length (utf16_of text.now) ≤ MAX_COORD }
    requires point { from.point ≡ point_of_byte text.now from.byte }
    ensures byte { result.byte ≡ to }
    ensures point { result.point ≡ point_of_byte text.now to }
    ensures ordered { IsTrue (point_le from.point result.point) }
{
    Place {
        byte: to,
        point: led_over(from.point, &text[from.byte..to]),
    }
}

// The point that lies a text behind `start`.
fn led_over(start: Point, text: &str) -> Point
    requires near { IsWithin MAX_COORD start }
    requires short { length (utf16_of text.now) ≤ MAX_COORD }
    ensures { result ≡ traverse start (extent (utf16_of text.now)) }
{
    if text.is_ascii() {
        led_by_bytes(start, text.as_bytes())
    } else {
        led_by_chars(start, text)
    }
}

// The same as `led_over`, for a text whose units are its bytes.
fn led_by_bytes(start: Point, bytes: &[u8]) -> Point
    requires near { IsWithin MAX_COORD start }
    requires short { length bytes.now ≤ MAX_COORD }
    ensures { result ≡ traverse start (extent bytes.now) }
{
    let rows = feeds_in(bytes) as u32;
    let column = last_column(bytes) as u32;
    if rows == 0 {
        Point {
            row: start.row,
            column: start.column + column,
        }
    } else {
        Point {
            row: start.row + rows,
            column,
        }
    }
}

// How many line feeds there are.
fn feeds_in(bytes: &[u8]) -> usize
    ensures { result ≡ count_by is_lf bytes.now }
{
    let mut feeds = 0;
    for byte in bytes {
        if *byte == b'\n' {
            feeds += 1;
        }
    }
    feeds
}

// How many bytes stand behind the last line feed.
fn last_column(bytes: &[u8]) -> usize
    ensures value { result ≡ suffix_len (λ u. not (is_lf u)) bytes.now }
    ensures short { result ≤ length bytes.now }
{
    let mut at = bytes.len();
    while 0 < at {
        if bytes[at - 1] == b'\n' {
            return bytes.len() - at;
        }
        at -= 1;
    }
    bytes.len()
}

// The same as `led_over`, character by character.
fn led_by_chars(start: Point, text: &str) -> Point
    requires near { IsWithin MAX_COORD start }
    requires short { length (utf16_of text.now) ≤ MAX_COORD }
    ensures { result ≡ traverse start (extent (utf16_of text.now)) }
{
    let mut reached = start;
    for c in text.chars() {
        reached = behind(reached, c);
    }
    reached
}

// The point behind one character more.
fn behind(point: Point, c: char) -> Point
    requires { IsWithin (2 * MAX_COORD) point }
    ensures { result ≡ traverse point (extent (encode_utf16 c)) }
{
    if c == '\n' {
        return Point {
            row: point.row + 1,
            column: 0,
        };
    }
    Point {
        row: point.row,
        column: point.column + c.len_utf16() as u32,
    }
}
