//! Distances in a text, in rows and columns of 64 bits: no text is too long for its distance, and
//! two points added up don't pass its end. Where a distance is asked for as a point, it is refused
//! past the greatest coordinate, or cut down to the farthest point that 32 bits can name.
ghost use Rattle.std.specs.Prelude.{◌≡◌, ◌+◌, ◌-◌, ◌<◌, ◌^◌, ◌↔◌, [], ◌∷◌, false};
ghost use Rattle.points.specs.Point.{IsWithin, point_le, traverse};
ghost use Rattle.points.specs.Place.{extent, same_point};
ghost use Rattle.points.specs.Distance.{point_of, is_far, near, capped};

use crate::limits::MAX_COORD;
use crate::point::Point;

/// How far one place of a text lies behind another: the line feeds between them, and the units
/// behind the last of these.
#[derive(Clone, Copy, Debug, Default, PartialEq, Eq)]
pub struct Distance {
    pub rows: u64,
    pub columns: u64,
}

impl Distance {
    /// From the start of a text to its end.
    pub fn of_text(units: &[u16]) -> Self
        ensures { point_of result ≡ extent units.now }
    {
        let mut reached = Distance::default();
        for unit in units {
            reached = reached.over(*unit);
        }
        reached
    }

    /// From the start of a text to the point, or an extent as a distance.
    pub fn of_point(point: Point) -> Self
        ensures { point_of result ≡ point }
    {
        Distance {
            rows: u64::from(point.row),
            columns: u64::from(point.column),
        }
    }

    /// From the start of a text to what lies the extent `reach` behind the point `start`.
    pub fn behind(start: Point, reach: Point) -> Self
        ensures { point_of result ≡ traverse start reach }
    {
        Distance::of_point(start).then(Distance::of_point(reach))
    }

    /// This distance and `next` behind it.
    pub fn then(self, next: Distance) -> Self
        requires rows { self.rows + next.rows < 2 ^ 64 }
        requires columns { self.columns + next.columns < 2 ^ 64 }
        ensures { point_of result ≡ traverse (point_of self) (point_of next) }
    {
        if next.rows == 0 {
            Distance {
                rows: self.rows,
                columns: self.columns + next.columns,
            }
        } else {
            Distance {
                rows: self.rows + next.rows,
                columns: next.columns,
            }
        }
    }

    /// This distance and one unit more.
    pub fn over(self, unit: u16) -> Self
        requires rows { self.rows + 1 < 2 ^ 64 }
        requires columns { self.columns + 1 < 2 ^ 64 }
        ensures { point_of result ≡ traverse (point_of self) (extent (unit ∷ [])) }
    {
        if unit == 10 {
            Distance {
                rows: self.rows + 1,
                columns: 0,
            }
        } else {
            Distance {
                rows: self.rows,
                columns: self.columns + 1,
            }
        }
    }

    /// Whether it leads from the start of a text to this point.
    pub fn is_at(self, point: Point) -> bool
        ensures { result ≡ same_point (point_of self) point }
    {
        self.rows == u64::from(point.row) && self.columns == u64::from(point.column)
    }

    /// Whether it leads from the start of a text to `limit` or before it.
    pub fn is_within(self, limit: Point) -> bool
        ensures { result ≡ point_le (point_of self) limit }
    {
        self.rows < u64::from(limit.row)
            || (self.rows == u64::from(limit.row) && self.columns <= u64::from(limit.column))
    }

    /// Whether a coordinate of where it leads to passes [`MAX_COORD`].
    pub fn is_far(self) -> bool
        ensures far { result ≡ is_far (point_of self) }
        ensures near { (result ≡ false) ↔ IsWithin MAX_COORD (point_of self) }
    {
        self.rows > u64::from(MAX_COORD) || self.columns > u64::from(MAX_COORD)
    }

    /// The point that it leads to, where no coordinate passes [`MAX_COORD`].
    pub fn point(self) -> Option<Point>
        ensures { result ≡ near (point_of self) }
    {
        if self.is_far() {
            return None;
        }
        Some(Point {
            row: self.rows as u32,
            column: self.columns as u32,
        })
    }

    /// The point that it leads to, or the farthest one that a [`Point`] can name on its row, or at
    /// all where it can't name the row.
    pub fn capped(self) -> Point
        ensures { result ≡ capped (point_of self) }
    {
        let last = u64::from(u32::MAX);
        if self.rows > last {
            return Point {
                row: u32::MAX,
                column: u32::MAX,
            };
        }
        Point {
            row: self.rows as u32,
            column: self.columns.min(last) as u32,
        }
    }
}
