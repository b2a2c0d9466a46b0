//! Places in a text, known both ways.
ghost use Rattle.std.specs.Prelude.{◌≡◌, ◌≤◌, ℕ, length};
ghost use Rattle.points.specs.MarkText.{IsPointOf};
ghost use Rattle.points.specs.Place.{point_at};
ghost use Rattle.points.specs.Point.{IsWithin};
ghost use Rattle.points.specs.declared.limits.TheConstants.{MAX_UNITS, MAX_COORD};
ghost use Rattle.chains.specs.Spots.{ahead, spot_in};

use line_text::LineText;
use points::{Point, traversal, traverse};

/// A place in a text: the offset in UTF-16 units, and the point there.
#[derive(Clone, Copy, Debug, PartialEq, Eq)]
pub struct Spot {
    pub offset: u32,
    pub point: Point,
}

/// The place at an offset of a text.
pub(crate) fn spot_in(text: &LineText, offset: u32) -> Spot
    requires { offset ≤ length text.now }
    ensures { result ≡ spot_in text.now offset }
{
    Spot {
        offset,
        point: text.point_at(offset as usize),
    }
}

/// The place at a point that the text has.
pub(crate) fn spot_to(text: &LineText, point: Point) -> Spot
    requires { IsPointOf text.now point }
    ensures { (i : ℕ) → i ≤ length text.now → point_at text.now i ≡ point → result ≡ spot_in text.now i }
{
    let offset = text.offset_of(point).unwrap_or(text.len());
    Spot {
        offset: offset as u32,
        point,
    }
}

/// As far behind the spot `at` as `to` is behind `from`.
pub(crate) fn ahead(at: Spot, from: Spot, to: Spot) -> Spot
    requires order { from.offset ≤ to.offset }
    requires room { (ahead at from to).offset ≤ MAX_UNITS }
    requires near { IsWithin MAX_COORD (ahead at from to).point }
    ensures { result ≡ ahead at from to }
{
    Spot {
        offset: at.offset + (to.offset - from.offset),
        point: traverse(at.point, traversal(to.point, from.point)),
    }
}
