//! Parts of a text, lent with the starts of their rows, and texts that are put together from them.
//!
//! A part knows its offset in the text that lends it, and the starts of its rows as that text counts
//! them. So a text that takes it over moves these starts, and counts no line feed again.
ghost use Rattle.std.specs.Prelude.{◌≡◌, ℕ, ◌+◌, ◌-◌, ◌<◌, ◌≤◌, ◌++◌, ◌^◌, [], List, IfOk, OnOk, OnErr, length, map, slice_range, vec_len, vec_capacity};
ghost use Rattle.line_text.specs.Starts.{starts_from, starts_of, CanMove};

use crate::edit::{make_room, move_starts, open_gap, rows_between};
use crate::text::LineText;
use points::{MAX_UNITS, NoMemory};
use std::alloc::Global;
use std::marker::Model;

/// Units of a text from one offset up to another, lent.
#[derive(Debug, Drop)]
pub struct TextPart<'a> {
    units: &'a [u16],
    // Where each row of the part but its first starts in the text.
    starts: &'a [u32],
    // Where the part starts in the text.
    offset: u32,
}

impl<'a> Model for TextPart<'a> {
    ghost use Rattle.std.specs.Prelude.{◌≡◌, ◌+◌, ◌≤◌, ℕ, List, length};
    ghost use Rattle.points.specs.declared.limits.TheConstants.{MAX_UNITS};
    ghost use Rattle.line_text.specs.Starts.{starts_from};

    ghost Value = { List ℕ };

    ghost view = { λ p. p.units.now };

    ghost invariant = { λ p. (p.starts.now ≡ starts_from p.offset p.units.now)
        × (p.offset + length p.units.now ≤ MAX_UNITS) };
}

impl<'a> TextPart<'a> {
    /// How many units there are, at most [`MAX_UNITS`].
    pub fn len(&self) -> usize
        ensures value { result ≡ length self.now }
        ensures short { result ≤ MAX_UNITS }
    {
        self.units.len()
    }

    /// The units, lent by the text.
    pub fn as_slice(&self) -> &'a [u16]
        ensures { result.now ≡ self.now }
    {
        self.units
    }
}

impl LineText {
    /// An empty text with room for so many units and line feeds.
    pub fn with_room(alloc: Global, units: usize, feeds: usize) -> Result<Self, NoMemory>
        ensures { IfOk result (λ made. made ≡ []) }
    {
        let mut text = LineText {
            units: Vec::new(alloc),
            starts: Vec::new(alloc),
        };
        make_room(&mut text.units, units, 0)?;
        make_room(&mut text.starts, feeds, 0)?;
        Ok(text)
    }

    /// The units from one offset up to another, lent with the starts of their rows.
    pub fn part(&self, from: usize, to: usize) -> TextPart<'_>
        requires order { from ≤ to }
        requires within { to ≤ length self.now }
        ensures { result ≡ slice_range self.now from to }
    {
        let rows = self.rows_kept();
        let (first, last) = rows_between(rows.units, rows.starts, from, to);
        TextPart {
            units: &rows.units[from..to],
            starts: &rows.starts[first..last],
            offset: from as u32,
        }
    }

    /// Puts a part of a text at the end.
    pub fn append(&mut self, part: TextPart<'_>) -> Result<(), NoMemory>
        requires { length self.old + length part ≤ MAX_UNITS }
        ensures ok { OnOk result (self.new ≡ self.old ++ part.entry) }
        ensures err { OnErr result (self.new ≡ self.old) }
    {
        let TextPart {
            units,
            starts,
            offset,
        } = part;
        append_units(&mut self.units, &mut self.starts, units, starts, offset)
    }
}

// Puts `more` at the end of the units of a text, and its starts, which are counted from `offset`, behind
// those of the text.
fn append_units(
    units: &mut Vec<u16>,
    starts: &mut Vec<u32>,
    more: &[u16],
    more_starts: &[u32],
    offset: u32,
) -> Result<(), NoMemory>
    requires kept { starts.old.items ≡ starts_of units.old.items }
    requires more_kept { more_starts.now ≡ starts_from offset more.now }
    requires within { offset + length more.now ≤ MAX_UNITS }
    requires fits { vec_len units.old + length more.now ≤ MAX_UNITS }
    ensures ok { OnOk result (units.new.items ≡ units.old.items ++ more.now) }
    ensures ok_starts { OnOk result (starts.new.items ≡ starts_of units.new.items) }
    ensures err { OnErr result (units.new.items ≡ units.old.items) }
    ensures err_starts { OnErr result (starts.new.items ≡ starts.old.items) }
{
    let len = units.len();
    make_room(starts, more_starts.len(), 0)?;
    units.extend_from_slice(more)?;
    append_starts(starts, more_starts, offset, len as u32);
    Ok(())
}

// Puts starts that stand behind the offset `from` at the end, as far behind `to`. There is room for
// them already.
fn append_starts(starts: &mut Vec<u32>, more: &[u32], from: u32, to: u32)
    requires room { vec_len starts.old + length more.now ≤ vec_capacity starts.old }
    requires moves { CanMove from to more.now }
    ensures { starts.new.items ≡ starts.old.items ++ map (λ s. s - from + to) more.now }
{
    let len = starts.len();
    open_gap(starts, len, len, more.len(), 0);
    let behind = &mut starts[len..];
    behind.copy_from_slice(more);
    move_starts(behind, from, to);
}
