//! Points of a list of units, and where points are clipped to.
ghost use Rattle.std.specs.Prelude.{◌≡◌, ℕ, ◌+◌, ◌-◌, ◌<◌, ◌≤◌, length, take, count_by, Bool, not, if◌then◌else◌, MatchOption};
ghost use Rattle.points.specs.Text.{is_lf};
ghost use Rattle.points.specs.Place.{point_at, row_of, ends_with_cr, line_of, clipped_column, clip, clipped_offset};
ghost use Rattle.points.specs.declared.limits.TheConstants.{MAX_UNITS};
ghost use Rattle.machine.specs.Machine.{shown};

use line_text::splits_pair;
use points::{Point, Range, extent_of, offset_of};

const LINE_FEED: u16 = 10;

const CARRIAGE_RETURN: u16 = 13;

/// The point at an offset.
pub(crate) fn point_at(units: &[u16], offset: usize) -> Point
    requires within { offset ≤ length units.now }
    requires short { length units.now ≤ MAX_UNITS }
    ensures { result ≡ point_at units.now offset }
{
    extent_of(&units[..offset])
}

/// The offset of the point that `point` is clipped to.
pub(crate) fn clipped_offset(units: &[u16], point: Point) -> usize
    requires { length units.now ≤ MAX_UNITS }
    ensures { result ≡ clipped_offset units.now point }
{
    offset_of(units, clip(units, point)).unwrap_or(0)
}

/// The point that `point` is clipped to.
pub(crate) fn clip(units: &[u16], point: Point) -> Point
    requires { length units.now ≤ MAX_UNITS }
    ensures { result ≡ clip units.now point }
{
    let row = point.row as usize;
    let last = line_feeds(units);
    if row > last {
        return extent_of(units);
    }
    let line = line_in(row_of(units, row), row == last);
    Point {
        row: point.row,
        column: clipped_column(line, point.column as usize) as u32,
    }
}

// How many rows have an ending.
fn line_feeds(units: &[u16]) -> usize
    ensures { result ≡ count_by is_lf units.now }
{
    units.iter().filter(|unit| **unit == LINE_FEED).count()
}

// The units of a row, a carriage return of its ending among them.
fn row_of(units: &[u16], row: usize) -> &[u16]
    requires { row ≤ count_by is_lf units.now }
    ensures { result.now ≡ row_of units.now row }
{
    match units.split(|unit| *unit == LINE_FEED).nth(row) {
        Some(units) => units,
        None => unreachable!(),
    }
}

// A row's units without its ending; the last row has none.
fn line_in(row: &[u16], is_last: bool) -> &[u16]
    ensures { result.now ≡ (if is_last then row.now else (if ends_with_cr row.now then take (length row.now - 1) row.now else row.now)) }
{
    match row {
        [line @ .., CARRIAGE_RETURN] if !is_last => line,
        _ => row,
    }
}

// The column of a line that `column` is clipped to: within the line, and outside a pair.
fn clipped_column(line: &[u16], column: usize) -> usize
    ensures { result ≡ clipped_column line.now column }
{
    let column = column.min(line.len());
    if splits_pair(line, column) {
        column - 1
    } else {
        column
    }
}

/// The first units, at most `limit`, and one fewer where that would part a surrogate pair.
pub(crate) fn shown(units: &[u16], limit: usize) -> &[u16]
    ensures { result.now ≡ shown limit units.now }
{
    &units[..clipped_column(units, limit)]
}

/// The offsets of the clipped ends of a range.
pub(crate) fn span(units: &[u16], range: Range) -> (usize, usize)
    requires { length units.now ≤ MAX_UNITS }
    ensures from { result.0 ≡ clipped_offset units.now range.start }
    ensures to { result.1 ≡ clipped_offset units.now range.end }
    ensures order { result.0 ≤ result.1 }
    ensures within { result.1 ≤ length units.now }
{
    let from = clipped_offset(units, range.start);
    let to = clipped_offset(units, range.end);
    (from, to)
}
