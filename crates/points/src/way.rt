//! The way from point to point: on over an extent or over the units of a text, and back.
ghost use Rattle.std.specs.Prelude.{◌≡◌, ◌≤◌, ◌↔◌, IsTrue, length};
ghost use Rattle.points.specs.Point.{IsWithin, point_le, traverse, traversal};
ghost use Rattle.points.specs.Place.{extent, offset_of, same_point};
ghost use Rattle.points.specs.Distance.{near, capped, traverse_capped};

use crate::distance::Distance;
use crate::limits::MAX_COORD;
use crate::point::Point;

/// The point that lies the extent `b` behind the point `a`. Rows add up; the column counts on where
/// the extent stays on a row, and starts afresh where it goes to another.
pub fn traverse(a: Point, b: Point) -> Point
    requires { IsWithin MAX_COORD (traverse a b) }
    ensures { result ≡ traverse a b }
{
    if b.row == 0 {
        Point {
            row: a.row,
            column: a.column + b.column,
        }
    } else {
        Point {
            row: a.row + b.row,
            column: b.column,
        }
    }
}

/// As [`traverse`], where no coordinate passes [`MAX_COORD`].
pub fn traverse_near(a: Point, b: Point) -> Option<Point>
    ensures { result ≡ near (traverse a b) }
{
    Distance::behind(a, b).point()
}

/// As [`traverse`], or the farthest point that can be named ([`Distance::capped`]).
pub fn traverse_capped(a: Point, b: Point) -> Point
    ensures { result ≡ traverse_capped a b }
{
    Distance::behind(a, b).capped()
}

/// The point that lies the extent of `units` behind `start`, or the farthest one that can be named;
/// `start` may be such a point too.
pub fn led_by(start: Point, units: &[u16]) -> Point
    ensures from { (p : Point) → start ≡ capped p → result ≡ capped (traverse p (extent units.now)) }
    ensures value { result ≡ capped (traverse start (extent units.now)) }
{
    traverse_capped(start, extent_capped(units))
}

/// Whether the point that lies the extent `b` behind the point `a` stands at `limit` or before it.
pub fn leads_within(a: Point, b: Point, limit: Point) -> bool
    ensures { result ≡ point_le (traverse a b) limit }
{
    Distance::behind(a, b).is_within(limit)
}

/// Whether no coordinate of the point that lies the extent `b` behind the point `a` passes
/// [`MAX_COORD`].
pub fn leads_near(a: Point, b: Point) -> bool
    ensures { IsTrue result ↔ IsWithin MAX_COORD (traverse a b) }
{
    !Distance::behind(a, b).is_far()
}

/// The extent that leads from the point `b` to the point `a`. Where `a` stands before `b`, a
/// difference that would be negative counts as 0.
pub fn traversal(a: Point, b: Point) -> Point
    ensures { result ≡ traversal a b }
{
    if a.row == b.row {
        Point {
            row: 0,
            column: a.column.saturating_sub(b.column),
        }
    } else {
        Point {
            row: a.row.saturating_sub(b.row),
            column: a.column,
        }
    }
}

/// The extent of a text: its line feeds, and its units behind the last of them.
pub fn extent_of(units: &[u16]) -> Point
    requires { length units.now ≤ MAX_COORD }
    ensures { result ≡ extent units.now }
{
    extent_capped(units)
}

/// The extent of any text, or the farthest one that can be named.
pub fn extent_capped(units: &[u16]) -> Point
    ensures { result ≡ capped (extent units.now) }
{
    Distance::of_text(units).capped()
}

/// Whether the text has the extent `reach`.
pub fn has_extent(units: &[u16], reach: Point) -> bool
    ensures { result ≡ same_point (extent units.now) reach }
{
    Distance::of_text(units).is_at(reach)
}

/// The offset in the text at which the point is `point`, where there is one.
pub fn offset_of(units: &[u16], point: Point) -> Option<usize>
    ensures { result ≡ offset_of units.now point }
{
    let mut reached = Distance::default();
    for (at, unit) in units.iter().enumerate() {
        if reached.is_at(point) {
            return Some(at);
        }
        reached = reached.over(*unit);
    }
    if reached.is_at(point) {
        Some(units.len())
    } else {
        None
    }
}
