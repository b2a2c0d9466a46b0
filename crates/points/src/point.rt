//! A place in a text, in rows and columns.
ghost use Rattle.std.specs.Prelude.{◌≡◌, ◌↔◌, false};
ghost use Rattle.points.specs.Point.{IsWithin};
ghost use Rattle.points.specs.Distance.{is_far};

use crate::limits::MAX_COORD;

/// A place in a text: the rows (line feeds) before it, and the UTF-16 units since its row began.
/// Points are ordered by row, then by column.
#[derive(Clone, Copy, Debug, Default, PartialEq, Eq, PartialOrd, Ord, Hash)]
pub struct Point {
    pub row: u32,
    pub column: u32,
}

impl Point {
    /// Whether a coordinate passes [`MAX_COORD`].
    pub fn is_far(self) -> bool
        ensures far { result ≡ is_far self }
        ensures near { (result ≡ false) ↔ IsWithin MAX_COORD self }
    {
        self.row > MAX_COORD || self.column > MAX_COORD
    }
}
