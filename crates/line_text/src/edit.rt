//! Making a text, and replacing a part of it. A replacement is made in place: the tail moves over the
//! gap that opens or closes, the new units are written into the gap, and only the starts behind the
//! first edited row are mended.
//!
//! All memory is taken before anything is written, so a refusal leaves the text as it was.
ghost use Rattle.std.specs.Prelude.{◌≡◌, ℕ, ◌+◌, ◌-◌, ◌<◌, ◌≤◌, ◌↔◌, ◌++◌, ◌^◌, IfOk, OnOk, OnErr, length, take, drop, map};
ghost use Rattle.std.specs.Prelude.{count_by, vec_len, vec_capacity};
ghost use Rattle.points.specs.Text.{IsWellFormed, is_lf, replaced, utf16_of};
ghost use Rattle.points.specs.Place.{point_at, clip, clipped_offset};
ghost use Rattle.line_text.specs.Size.{size_of};
ghost use Rattle.line_text.specs.Starts.{starts_from, starts_of, CanMove};

use crate::encode::{Size, size_within, write_units};
use crate::ending::LINE_FEED;
use crate::refusal::TextRefusal;
use crate::rows::Rows;
use crate::text::LineText;
use points::{MAX_UNITS, NoMemory, Point, Range, Units};
use std::alloc::Global;

/// Where a replacement was made: the clipped ends of its range in the text before it, and the end
/// of the new units in the text after it, which start where the range did.
#[derive(Clone, Copy, Debug, PartialEq, Eq, Hash)]
pub struct Replaced {
    pub from: Point,
    pub to: Point,
    pub end: Point,
}

impl LineText {
    /// The UTF-16 encoding of `text`.
    pub fn from_str(alloc: Global, text: &str) -> Result<Self, TextRefusal>
        ensures ok { IfOk result (λ made. made ≡ utf16_of text.now) }
        ensures too_long { (result ≡ Err TextRefusal.TooLong) ↔ (MAX_UNITS < length (utf16_of text.now)) }
        ensures well_formed { IfOk result (λ made. IsWellFormed made) }
    {
        let Some(size) = size_within(text, MAX_UNITS) else {
            return Err(TextRefusal::TooLong);
        };
        let mut units = Vec::new(alloc);
        let mut starts = Vec::new(alloc);
        replace_units(&mut units, &mut starts, 0, 0, text, size)?;
        Ok(LineText { units, starts })
    }

    /// The text of these units. They need not be well-formed.
    pub fn from_units(units: Units) -> Result<Self, TextRefusal>
        ensures ok { IfOk result (λ made. made ≡ units) }
        ensures too_long { (result ≡ Err TextRefusal.TooLong) ↔ (MAX_UNITS < length units) }
    {
        if units.len() > MAX_UNITS {
            return Err(TextRefusal::TooLong);
        }
        let units = units.into_vec();
        let starts = starts_of(*units.allocator(), units.as_slice())?;
        Ok(LineText { units, starts })
    }

    /// Replaces the units between the clipped ends of `range` by those of `text`.
    pub fn replace(&mut self, range: Range, text: &str) -> Result<Replaced, TextRefusal>
        ensures ok { OnOk result (self.new ≡ replaced self.old (clipped_offset self.old range.start)
            (clipped_offset self.old range.end) (utf16_of text.now)) }
        ensures from { IfOk result (λ at. at.from ≡ clip self.old range.start) }
        ensures to { IfOk result (λ at. at.to ≡ clip self.old range.end) }
        ensures end { IfOk result (λ at. at.end ≡ point_at self.new
            (clipped_offset self.old range.start + length (utf16_of text.now))) }
        ensures too_long { (result ≡ Err TextRefusal.TooLong) ↔ (MAX_UNITS < length (replaced self.old
            (clipped_offset self.old range.start) (clipped_offset self.old range.end) (utf16_of text.now))) }
        ensures err { OnErr result (self.new ≡ self.old) }
        ensures well_formed { IsWellFormed self.old → OnOk result (IsWellFormed self.new) }
    {
        let (from, to) = self.span(range);
        let start = self.clip(range.start);
        let end = self.clip(range.end);
        let room = MAX_UNITS - (self.len() - (to - from));
        let Some(size) = size_within(text, room) else {
            return Err(TextRefusal::TooLong);
        };
        replace_units(&mut self.units, &mut self.starts, from, to, text, size)?;
        Ok(Replaced {
            from: start,
            to: end,
            end: self.point_at(from + size.units),
        })
    }
}

/// Replaces the units from `from` up to `to` by those of `text`, and mends the starts.
pub(crate) fn replace_units(
    units: &mut Vec<u16>,
    starts: &mut Vec<u32>,
    from: usize,
    to: usize,
    text: &str,
    size: Size,
) -> Result<(), NoMemory>
    requires kept { starts.old.items ≡ starts_of units.old.items }
    requires short { vec_len units.old ≤ MAX_UNITS }
    requires order { from ≤ to }
    requires within { to ≤ vec_len units.old }
    requires sized { size ≡ size_of (utf16_of text.now) }
    requires fits { vec_len units.old + size.units ≤ MAX_UNITS + (to - from) }
    ensures ok { OnOk result (units.new.items ≡ replaced units.old.items from to (utf16_of text.now)) }
    ensures ok_starts { OnOk result (starts.new.items ≡ starts_of units.new.items) }
    ensures err { OnErr result (units.new.items ≡ units.old.items) }
    ensures err_starts { OnErr result (starts.new.items ≡ starts.old.items) }
{
    let (first, last) = rows_between(units.as_slice(), starts.as_slice(), from, to);
    make_room(units, size.units, to - from)?;
    make_room(starts, size.feeds, last - first)?;
    edit_units(units, from, to, text, size.units);
    let written = &units.as_slice()[from..from + size.units];
    edit_starts(
        starts,
        first,
        last,
        size.feeds,
        written,
        from as u32,
        to as u32,
    );
    Ok(())
}

/// The starts of the rows of these units.
pub(crate) fn starts_of(alloc: Global, units: &[u16]) -> Result<Vec<u32>, NoMemory>
    requires { length units.now ≤ MAX_UNITS }
    ensures { IfOk result (λ starts. starts.items ≡ starts_of units.now) }
{
    let mut starts = Vec::new(alloc);
    let len = count_feeds(units);
    make_room(&mut starts, len, 0)?;
    open_gap(&mut starts, 0, 0, len, 0);
    write_starts(starts.as_mut_slice(), units, 0);
    Ok(starts)
}

/// How many line feeds there are.
pub(crate) fn count_feeds(units: &[u16]) -> usize
    ensures { result ≡ count_by is_lf units.now }
{
    units.iter().filter(|unit| **unit == LINE_FEED).count()
}

/// The rows in which the offsets `from` and `to` lie.
pub(crate) fn rows_between(units: &[u16], starts: &[u32], from: usize, to: usize) -> (usize, usize)
    requires kept { starts.now ≡ starts_of units.now }
    requires short { length units.now ≤ MAX_UNITS }
    requires order { from ≤ to }
    requires within { to ≤ length units.now }
    ensures first { result.0 ≡ count_by is_lf (take from units.now) }
    ensures last { result.1 ≡ count_by is_lf (take to units.now) }
    ensures order { result.0 ≤ result.1 }
    ensures within { result.1 ≤ length starts.now }
{
    let rows = Rows { units, starts };
    (rows.row_at(from), rows.row_at(to))
}

/// Takes the memory for a gap of `len` places where `removed` items stand.
pub(crate) fn make_room<T>(items: &mut Vec<T>, len: usize, removed: usize) -> Result<(), NoMemory>
    requires { removed ≤ vec_len items.old }
    ensures items { items.new.items ≡ items.old.items }
    ensures ok { OnOk result (vec_len items.new + len ≤ vec_capacity items.new + removed) }
{
    items.reserve(len.saturating_sub(removed))?;
    Ok(())
}

// Writes the units of `text` in place of those from `from` up to `to`.
fn edit_units(units: &mut Vec<u16>, from: usize, to: usize, text: &str, len: usize)
    requires order { from ≤ to }
    requires within { to ≤ vec_len units.old }
    requires sized { len ≡ length (utf16_of text.now) }
    requires room { vec_len units.old + len ≤ vec_capacity units.old + (to - from) }
    ensures { units.new.items ≡ replaced units.old.items from to (utf16_of text.now) }
{
    open_gap(units, from, to, len, 0);
    write_units(&mut units[from..from + len], text);
}

/// Writes the starts that the units `written` at offset `from` make in place of those from the
/// place `first` up to the place `last`, and moves the later ones, which stood behind offset `to`.
pub(crate) fn edit_starts(
    starts: &mut Vec<u32>,
    first: usize,
    last: usize,
    len: usize,
    written: &[u16],
    from: u32,
    to: u32,
)
    requires order { first ≤ last }
    requires within { last ≤ vec_len starts.old }
    requires sized { len ≡ count_by is_lf written.now }
    requires room { vec_len starts.old + len ≤ vec_capacity starts.old + (last - first) }
    requires small { from + length written.now < 2 ^ 32 }
    requires moves { CanMove to (from + length written.now) (drop last starts.old.items) }
    ensures { starts.new.items ≡ take first starts.old.items ++ starts_from from written.now
        ++ map (λ s. s - to + (from + length written.now)) (drop last starts.old.items) }
{
    open_gap(starts, first, last, len, 0);
    write_starts(&mut starts[first..first + len], written, from);
    move_starts(&mut starts[first + len..], to, from + written.len() as u32);
}

/// Makes the items from `from` up to `to` into a gap of `len` places, whose content is left open.
/// There is room for it already.
pub(crate) fn open_gap<T: Copy>(items: &mut Vec<T>, from: usize, to: usize, len: usize, filler: T)
    requires order { from ≤ to }
    requires within { to ≤ vec_len items.old }
    requires room { vec_len items.old + len ≤ vec_capacity items.old + (to - from) }
    ensures front { take from items.new.items ≡ take from items.old.items }
    ensures back { drop (from + len) items.new.items ≡ drop to items.old.items }
    ensures len { vec_len items.new + (to - from) ≡ vec_len items.old + len }
{
    let end = items.len();
    if len > to - from {
        let _ = items.resize(end + (len - (to - from)), filler);
    }
    items.copy_within(to..end, from + len);
    items.truncate(end - (to - from) + len);
}

/// Writes the starts behind the line feeds of `units`, which stand at offset `base`.
fn write_starts(into: &mut [u32], units: &[u16], base: u32)
    requires fits { length into.old ≡ count_by is_lf units.now }
    requires small { base + length units.now < 2 ^ 32 }
    ensures { into.new ≡ starts_from base units.now }
{
    let mut at = 0;
    let mut behind = base;
    for unit in units {
        behind += 1;
        if *unit == LINE_FEED {
            into[at] = behind;
            at += 1;
        }
    }
}

/// Moves starts that stood behind offset `from` so that they stand as far behind `to`.
pub(crate) fn move_starts(starts: &mut [u32], from: u32, to: u32)
    requires { CanMove from to starts.old }
    ensures { starts.new ≡ map (λ s. s - from + to) starts.old }
{
    for start in starts.iter_mut() {
        *start = *start - from + to;
    }
}
