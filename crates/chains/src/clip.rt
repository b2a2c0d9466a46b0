//! Where points are clipped to in a text in layers.
//!
//! A row past the last goes to the end of the text; a column past the row's units without their ending goes
//! to their number; a column that then stands between the two units of a surrogate pair goes back by one.
//! Of the text only these two units are read, each in the layer in which it stands.
ghost use Rattle.std.specs.Prelude.{◌≡◌, ◌<◌, ◌≤◌, length};
ghost use Rattle.points.specs.Place.{line_of, splits_pair, clip, clipped_column, clipped_offset};
ghost use Rattle.chains.specs.Layered.{whole_text};
ghost use Rattle.chains.specs.Lines.{IsLine, IsLineAt};
ghost use Rattle.chains.specs.Spots.{spot_in};

use crate::chain::Chain;
use crate::line::Line;
use crate::spot::Spot;
use line_text::splits_pair;
use points::{Point, Range};

impl Chain {
    /// The point that a point is clipped to.
    pub fn clip(&self, point: Point) -> Point
        ensures { result ≡ clip (whole_text self.now) point }
    {
        self.clipped(point).point
    }

    /// The places of the clipped ends of a range.
    pub fn span(&self, range: Range) -> (Spot, Spot)
        ensures from { result.0 ≡ spot_in (whole_text self.now) (clipped_offset (whole_text self.now) range.start) }
        ensures to { result.1 ≡ spot_in (whole_text self.now) (clipped_offset (whole_text self.now) range.end) }
        ensures order { result.0.offset ≤ result.1.offset }
        ensures within { result.1.offset ≤ length (whole_text self.now) }
    {
        let first = self.line_at(range.start.row);
        let last = self.last_line(range, first);
        (
            self.clipped_on(first, range.start),
            self.clipped_on(last, range.end),
        )
    }

    /// The place that a point is clipped to.
    pub fn clipped(&self, point: Point) -> Spot
        ensures { result ≡ spot_in (whole_text self.now) (clipped_offset (whole_text self.now) point) }
    {
        self.clipped_on(self.line_at(point.row), point)
    }

    // The line of the row in which a range ends, where `first` is that of the row in which it starts.
    fn last_line(&self, range: Range, first: Option<Line>) -> Option<Line>
        requires { IsLineAt (whole_text self.now) range.start.row first }
        ensures { IsLineAt (whole_text self.now) range.end.row result }
    {
        if range.start.row == range.end.row {
            first
        } else {
            self.line_at(range.end.row)
        }
    }

    // The place that a point is clipped to, where `line` is that of its row.
    fn clipped_on(&self, line: Option<Line>, point: Point) -> Spot
        requires { IsLineAt (whole_text self.now) point.row line }
        ensures { result ≡ spot_in (whole_text self.now) (clipped_offset (whole_text self.now) point) }
    {
        match line {
            None => self.end(),
            Some(line) => self.clipped_in(line, point),
        }
    }

    // The place that a point is clipped to, on the line of its row.
    fn clipped_in(&self, line: Line, point: Point) -> Spot
        requires { IsLine (whole_text self.now) point.row line }
        ensures { result ≡ spot_in (whole_text self.now) (clipped_offset (whole_text self.now) point) }
    {
        let column = self.clipped_column(line, point);
        Spot {
            offset: line.start + column,
            point: Point {
                row: point.row,
                column,
            },
        }
    }

    // The column that a point is clipped to, on the line of its row.
    fn clipped_column(&self, line: Line, point: Point) -> u32
        requires { IsLine (whole_text self.now) point.row line }
        ensures { result ≡ clipped_column (line_of (whole_text self.now) point.row) point.column }
    {
        let column = point.column.min(line.len);
        if 0 < column && column < line.len && self.splits_pair(line.start + column) {
            column - 1
        } else {
            column
        }
    }

    // Whether an offset stands between the two units of a surrogate pair.
    fn splits_pair(&self, at: u32) -> bool
        requires some { 0 < at }
        requires within { at < length (whole_text self.now) }
        ensures { result ≡ splits_pair (whole_text self.now) at }
    {
        let pair = [self.unit(at - 1), self.unit(at)];
        splits_pair(&pair, 1)
    }
}
