//! Stretches of a text, from a point up to another.
ghost use Rattle.std.specs.Prelude.{◌≡◌, IsTrue};
ghost use Rattle.points.specs.Point.{point_le};

use crate::point::Point;

/// A stretch of a text from `start` up to `end`, which isn't before it.
#[derive(Clone, Copy, Debug, PartialEq, Eq, Hash)]
pub struct Range {
    pub start: Point,
    pub end: Point,
    pub ghost ordered: { IsTrue (point_le start end) },
}

impl Range {
    /// The range from `start` up to `end`. `start <= end` is the test for its condition.
    pub fn new(start: Point, end: Point) -> Self
        requires { IsTrue (point_le start end) }
        ensures start { result.start ≡ start }
        ensures end { result.end ≡ end }
    {
        Range { start, end }
    }
}
