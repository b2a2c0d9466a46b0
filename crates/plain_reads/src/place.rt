//! Hits as ranges of points: from byte offsets in UTF-8 to rows and columns in UTF-16, in one pass over the text.
ghost use Rattle.std.specs.Prelude.{◌≡◌, ◌*◌, ◌≤◌, length, map, IfOk};
ghost use Rattle.std.specs.Str.{IsCharBoundary};
ghost use Rattle.std.specs.Char.Escape.{encode_utf16};
ghost use Rattle.points.specs.Text.{utf16_of};
ghost use Rattle.points.specs.Point.{IsWithin, traverse};
ghost use Rattle.points.specs.Place.{extent};
ghost use Rattle.machine.specs.Answers.{point_of_byte, span_of_bytes};
ghost use Rattle.outer.specs.Matcher.{AreHits};

use machine::Span;
use points::{MAX_COORD, NoMemory, Point};
use std::alloc::Global;

/// Hits in a text as points.
pub(crate) fn spans_of(
    alloc: Global,
    text: &str,
    hits: &[(usize, usize)],
) -> Result<Vec<Span>, NoMemory>
    requires sound { AreHits text.now hits.now }
    requires short { length (utf16_of text.now) ≤ MAX_COORD }
    ensures { IfOk result (λ spans. spans.items ≡ map (span_of_bytes text.now) hits.now) }
{
    let mut spans = Vec::with_capacity(alloc, hits.len())?;
    let mut at = Place {
        byte: 0,
        point: Point { row: 0, column: 0 },
    };
    for (start, end) in hits {
        let first = moved(text, at, *start);
        at = moved(text, first, *end);
        spans.push(Span {
            start: first.point,
            end: at.point,
        })?;
    }
    Ok(spans)
}

// A place between characters of a text, known both ways.
#[derive(Clone, Copy)]
struct Place {
    byte: usize,
    point: Point,
}

// The place at the byte offset `to`, which is no earlier than `from`.
fn moved(text: &str, from: Place, to: usize) -> Place
    requires order { from.byte ≤ to }
    requires start { IsCharBoundary text.now from.byte }
    requires end { IsCharBoundary text.now to }
    requires short { length (utf16_of text.now) ≤ MAX_COORD }
    requires point { from.point ≡ point_of_byte text.now from.byte }
    ensures byte { result.byte ≡ to }
    ensures point { result.point ≡ point_of_byte text.now to }
{
    Place {
        byte: to,
        point: led_over(from.point, &text[from.byte..to]),
    }
}

// The point that lies a text behind `start`.
fn led_over(start: Point, text: &str) -> Point
    requires near { IsWithin MAX_COORD start }
    requires short { length (utf16_of text.now) ≤ MAX_COORD }
    ensures { result ≡ traverse start (extent (utf16_of text.now)) }
{
    let mut reached = start;
    for c in text.chars() {
        reached = behind(reached, c);
    }
    reached
}

// The point behind one character more.
fn behind(point: Point, c: char) -> Point
    requires { IsWithin (2 * MAX_COORD) point }
    ensures { result ≡ traverse point (extent (encode_utf16 c)) }
{
    if c == '\n' {
        return Point {
            row: point.row + 1,
            column: 0,
        };
    }
    Point {
        row: point.row,
        column: point.column + c.len_utf16() as u32,
    }
}
