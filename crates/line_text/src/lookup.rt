//! Look-ups in a text: its extent and rows, the points of its offsets, and where points are clipped to.
ghost use Rattle.std.specs.Prelude.{◌≡◌, ◌+◌, ◌<◌, ◌≤◌, ◌↔◌, length, IsNone, IfSome};
ghost use Rattle.points.specs.Place.{extent, point_at, offset_of, line_of, clip, clipped_offset};
ghost use Rattle.line_text.specs.Ending.{ending_of};

use crate::ending::Ending;
use crate::rows::{clipped_column, ends_with_cr};
use crate::text::LineText;
use points::{Point, Range};

impl LineText {
    /// The end of the text.
    pub fn extent(&self) -> Point
        ensures { result ≡ extent self.now }
    {
        self.point_at(self.len())
    }

    /// How many rows there are: one more than line feeds.
    pub fn rows(&self) -> u32
        ensures { result ≡ (extent self.now).row + 1 }
    {
        self.rows_kept().last() as u32 + 1
    }

    /// The units of a row without its ending, lent.
    pub fn line(&self, row: u32) -> Option<&[u16]>
        ensures outside { IsNone result ↔ ((extent self.now).row < row) }
        ensures line { IfSome result (λ line. line.now ≡ line_of self.now row) }
    {
        let rows = self.rows_kept();
        if row as usize > rows.last() {
            return None;
        }
        Some(rows.line(row as usize))
    }

    /// How a row ends.
    pub fn ending(&self, row: u32) -> Option<Ending>
        ensures outside { IsNone result ↔ ((extent self.now).row < row) }
        ensures ending { IfSome result (λ ending. ending ≡ ending_of self.now row) }
    {
        let rows = self.rows_kept();
        let row = row as usize;
        if row > rows.last() {
            None
        } else if row == rows.last() {
            Some(Ending::Last)
        } else if ends_with_cr(rows.row(row)) {
            Some(Ending::CrLf)
        } else {
            Some(Ending::Lf)
        }
    }

    /// The point at an offset.
    pub fn point_at(&self, offset: usize) -> Point
        requires { offset ≤ length self.now }
        ensures { result ≡ point_at self.now offset }
    {
        let rows = self.rows_kept();
        let row = rows.row_at(offset);
        let column = offset - rows.start(row);
        Point {
            row: row as u32,
            column: column as u32,
        }
    }

    /// The offset at which the point is `point`, where there is one.
    pub fn offset_of(&self, point: Point) -> Option<usize>
        ensures { result ≡ offset_of self.now point }
    {
        let rows = self.rows_kept();
        let row = point.row as usize;
        if row > rows.last() {
            return None;
        }
        let start = rows.start(row);
        let column = point.column as usize;
        if column > rows.end(row) - start {
            return None;
        }
        Some(start + column)
    }

    /// The point that `point` is clipped to. A row past the last goes to the end of the text; a
    /// column past the row's units without their ending goes to their number; a column that then
    /// stands between the two units of a surrogate pair goes back by one.
    pub fn clip(&self, point: Point) -> Point
        ensures { result ≡ clip self.now point }
    {
        let rows = self.rows_kept();
        let row = point.row as usize;
        if row > rows.last() {
            return self.extent();
        }
        let line = rows.line(row);
        Point {
            row: point.row,
            column: clipped_column(line, point.column as usize) as u32,
        }
    }

    /// The offsets of the clipped ends of a range.
    pub fn span(&self, range: Range) -> (usize, usize)
        ensures from { result.0 ≡ clipped_offset self.now range.start }
        ensures to { result.1 ≡ clipped_offset self.now range.end }
        ensures order { result.0 ≤ result.1 }
        ensures within { result.1 ≤ length self.now }
    {
        (
            self.clipped_offset(range.start),
            self.clipped_offset(range.end),
        )
    }

    // The offset of the point that `point` is clipped to.
    fn clipped_offset(&self, point: Point) -> usize
        ensures { result ≡ clipped_offset self.now point }
    {
        let rows = self.rows_kept();
        let row = point.row as usize;
        if row > rows.last() {
            return rows.units.len();
        }
        rows.start(row) + clipped_column(rows.line(row), point.column as usize)
    }
}
