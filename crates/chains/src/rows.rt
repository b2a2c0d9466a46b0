//! Rows of a text in layers.
//!
//! A row's start and that of the next row are found by their points. Whether a carriage return belongs to
//! the row's ending is told by the one unit before the line feed, in whichever layer that stands: the other
//! units of the row aren't read.
ghost use Rattle.std.specs.Prelude.{◌≡◌, ◌+◌, ◌<◌, ◌≤◌, ◌↔◌, length, slice_index, IsNone, IfSome};
ghost use Rattle.points.specs.Place.{extent, row_start, line_of};
ghost use Rattle.chains.specs.Layered.{whole_text};
ghost use Rattle.chains.specs.Lines.{IsLineAt};

use crate::chain::Chain;
use crate::line::Line;
use points::{Point, Range};

// The unit that belongs to a row's ending where it stands directly before the line feed.
const CARRIAGE_RETURN: u16 = 13;

impl Chain {
    /// The range of a row without its ending, where the text has the row.
    pub fn line_range(&self, row: u32) -> Option<Range>
        ensures outside { IsNone result ↔ ((extent (whole_text self.now)).row < row) }
        ensures start { IfSome result (λ range. range.start ≡ record { row = row; column = 0 }) }
        ensures end { IfSome result (λ range. range.end ≡ record { row = row; column = length (line_of (whole_text self.now) row) }) }
    {
        let line = self.line_at(row)?;
        let start = Point { row, column: 0 };
        let end = Point {
            row,
            column: line.len,
        };
        Some(Range::new(start, end))
    }

    /// A row without its ending, where the text has the row.
    pub(crate) fn line_at(&self, row: u32) -> Option<Line>
        ensures { IsLineAt (whole_text self.now) row result }
    {
        if self.end().point.row < row {
            return None;
        }
        let start = self.spot_of(Point { row, column: 0 }).offset;
        let end = self.line_end(row, start);
        Some(Line {
            start,
            len: end - start,
        })
    }

    // Where a row ends without its ending, which starts at `start`.
    fn line_end(&self, row: u32, start: u32) -> u32
        requires in_text { row ≤ (extent (whole_text self.now)).row }
        requires start { start ≡ row_start (whole_text self.now) row }
        ensures { result ≡ row_start (whole_text self.now) row + length (line_of (whole_text self.now) row) }
    {
        let end = self.end();
        if row == end.point.row {
            return end.offset;
        }
        let next = Point {
            row: row + 1,
            column: 0,
        };
        let feed = self.spot_of(next).offset - 1;
        if start < feed && self.unit(feed - 1) == CARRIAGE_RETURN {
            feed - 1
        } else {
            feed
        }
    }

    /// The unit at an offset.
    pub(crate) fn unit(&self, at: u32) -> u16
        requires { at < length (whole_text self.now) }
        ensures { result ≡ slice_index (whole_text self.now) at }
    {
        prove!((at as usize) < self.len());
        let units = self.stretch(at, at + 1).part.as_slice();
        units[0]
    }
}
