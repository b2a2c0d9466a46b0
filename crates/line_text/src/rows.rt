//! The rows of a text: its units, and beside them the offsets at which its rows start. Here stand the
//! steps that look-ups share.
//!
//! An offset finds its row by halving the list of starts; a row's units lie between its start and
//! the next one. The first row starts at 0, so the list leaves it out.
ghost use Rattle.std.specs.Prelude.{◌≡◌, ◌+◌, ◌-◌, ◌≤◌, length, take, count_by, if◌then◌else◌};
ghost use Rattle.std.specs.Char.Utf16.{is_high_surrogate, is_low_surrogate};
ghost use Rattle.points.specs.Text.{is_lf};
ghost use Rattle.points.specs.Place.{row_of, row_start, ends_with_cr, line_of, splits_pair, clipped_column};
ghost use Rattle.points.specs.declared.limits.TheConstants.{MAX_UNITS};
ghost use Rattle.line_text.specs.Starts.{starts_of};

use crate::ending::CARRIAGE_RETURN;

/// The units of a text and the starts of its rows, lent.
#[derive(Clone, Copy)]
pub(crate) struct Rows<'a> {
    pub(crate) units: &'a [u16],
    pub(crate) starts: &'a [u32],
    ghost kept: { starts.now ≡ starts_of units.now },
    ghost short: { length units.now ≤ MAX_UNITS },
}

impl<'a> Rows<'a> {
    /// The row in which `offset` lies.
    pub(crate) fn row_at(self, offset: usize) -> usize
        requires { offset ≤ length self.units.now }
        ensures { result ≡ count_by is_lf (take offset self.entry.units.now) }
    {
        self.starts
            .partition_point(|start| *start as usize <= offset)
    }

    /// The last row: as many rows stand before it as there are line feeds.
    pub(crate) fn last(self) -> usize
        ensures value { result ≡ count_by is_lf self.entry.units.now }
        ensures within { result ≤ length self.entry.units.now }
    {
        self.starts.len()
    }

    /// Where `row` starts.
    pub(crate) fn start(self, row: usize) -> usize
        requires { row ≤ count_by is_lf self.units.now }
        ensures { result ≡ row_start self.entry.units.now row }
    {
        if row == 0 {
            0
        } else {
            self.starts[row - 1] as usize
        }
    }

    /// Where the units of `row` end: at its line feed, or at the end of the text.
    pub(crate) fn end(self, row: usize) -> usize
        requires { row ≤ count_by is_lf self.units.now }
        ensures { result ≡ row_start self.entry.units.now row + length (row_of self.entry.units.now row) }
    {
        if row < self.last() {
            self.starts[row] as usize - 1
        } else {
            self.units.len()
        }
    }

    /// The units of `row`, with a carriage return of its ending.
    pub(crate) fn row(self, row: usize) -> &'a [u16]
        requires { row ≤ count_by is_lf self.units.now }
        ensures { result.now ≡ row_of self.entry.units.now row }
    {
        let units = self.units;
        &units[self.start(row)..self.end(row)]
    }

    /// The units of `row` without its ending.
    pub(crate) fn line(self, row: usize) -> &'a [u16]
        requires { row ≤ count_by is_lf self.units.now }
        ensures { result.now ≡ line_of self.entry.units.now row }
    {
        let units = self.row(row);
        if row < self.last() {
            without_cr(units)
        } else {
            units
        }
    }
}

// A row's units without a carriage return at their end.
fn without_cr(units: &[u16]) -> &[u16]
    ensures { result.now ≡ (if ends_with_cr units.now then take (length units.now - 1) units.now else units.now) }
{
    match units {
        [line @ .., CARRIAGE_RETURN] => line,
        _ => units,
    }
}

/// Whether a carriage return stands at the end of these units.
pub(crate) fn ends_with_cr(units: &[u16]) -> bool
    ensures { result ≡ ends_with_cr units.now }
{
    matches!(units, [.., CARRIAGE_RETURN])
}

/// The column of a line that `column` is clipped to: within the line, and outside a pair.
pub(crate) fn clipped_column(line: &[u16], column: usize) -> usize
    ensures { result ≡ clipped_column line.now column }
{
    let column = column.min(line.len());
    if splits_pair(line, column) {
        column - 1
    } else {
        column
    }
}

/// Whether offset `column` of a line stands between the two units of a surrogate pair.
pub fn splits_pair(line: &[u16], column: usize) -> bool
    ensures { result ≡ splits_pair line.now column }
{
    0 < column && column < line.len() && is_high(line[column - 1]) && is_low(line[column])
}

fn is_high(unit: u16) -> bool
    ensures { result ≡ is_high_surrogate unit }
{
    (0xd800..0xdc00).contains(&unit)
}

fn is_low(unit: u16) -> bool
    ensures { result ≡ is_low_surrogate unit }
{
    (0xdc00..0xe000).contains(&unit)
}
