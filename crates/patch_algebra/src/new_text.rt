//! The new text, put together from what stays of the old one and the new texts of the changes.
ghost use Rattle.std.specs.Prelude.{◌≡◌, ◌≤◌, ◌<◌, ◌↔◌, IsTrue, length, slice_range, IfOk, IfErr, OnOk};
ghost use Rattle.patch.specs.Fit.{Fits, applied, offset_in};
ghost use Rattle.patch_algebra.specs.Applying.{Explains};

use crate::fit::first_misfit;
use crate::refusal::ApplyRefusal;
use line_text::LineText;
use patch::Patch;
use points::{MAX_UNITS, NoMemory, Point, Units};
use std::alloc::Global;

/// The text with the old ranges of all changes replaced at once by their new texts.
pub fn apply(alloc: Global, patch: &Patch, text: &LineText) -> Result<LineText, ApplyRefusal>
    ensures fits { OnOk result (Fits patch.now.changes text.now) }
    ensures made { IfOk result (λ made. made ≡ applied patch.now.changes text.now) }
    ensures short { OnOk result (length (applied patch.now.changes text.now) ≤ MAX_UNITS) }
    ensures err { IfErr result (Explains patch.now.changes text.now) }
{
    if let Some(change) = first_misfit(patch, text) {
        return Err(ApplyRefusal::DoesNotFit { change });
    }
    if is_too_long(patch, text) {
        return Err(ApplyRefusal::TooLong);
    }
    let units = new_units(alloc, patch, text)?;
    LineText::from_units(units).map_err(|_| ApplyRefusal::NoMemory)
}

// Whether the new text has more units than a text may have.
fn is_too_long(patch: &Patch, text: &LineText) -> bool
    ensures { IsTrue result ↔ (MAX_UNITS < length (applied patch.now.changes text.now)) }
{
    let mut len = 0;
    let mut read = 0;
    for change in patch.changes() {
        let kept = stretch(text, read, offset_in(text, change.old_range.start)).len();
        if kept > MAX_UNITS - len {
            return true;
        }
        len += kept;
        let put_in = change.new_text.len();
        if put_in > MAX_UNITS - len {
            return true;
        }
        len += put_in;
        read = offset_in(text, change.old_range.end);
    }
    stretch(text, read, text.len()).len() > MAX_UNITS - len
}

// The units of the new text.
fn new_units(alloc: Global, patch: &Patch, text: &LineText) -> Result<Units, NoMemory>
    ensures { IfOk result (λ units. units ≡ applied patch.now.changes text.now) }
{
    let mut units = Units::new(alloc);
    let mut read = 0;
    for change in patch.changes() {
        units.append(stretch(text, read, offset_in(text, change.old_range.start)))?;
        units.append(change.new_text)?;
        read = offset_in(text, change.old_range.end);
    }
    units.append(stretch(text, read, text.len()))?;
    Ok(units)
}

// The offset of a point, or 0 where the text doesn't have it.
fn offset_in(text: &LineText, point: Point) -> usize
    ensures { result ≡ offset_in text.now point }
{
    text.offset_of(point).unwrap_or(0)
}

// The units from one offset up to another that isn't past the end; none where it stands before it.
fn stretch(text: &LineText, from: usize, to: usize) -> &[u16]
    ensures { result.now ≡ slice_range text.now from to }
{
    let to = to.min(text.len());
    if from < to { text.slice(from, to) } else { &[] }
}
