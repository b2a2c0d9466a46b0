//! Stretches of an old text, one behind the other, and the patch that is laid out from them.
ghost use Rattle.std.specs.Prelude.{◌≡◌, ◌++◌, [], ◌∷◌, List, IsTrue, IfOk, IfErr, OnOk};
ghost use Rattle.points.specs.Point.{origin, point_le};
ghost use Rattle.points.specs.Place.{extent};
ghost use Rattle.points.specs.Distance.{traverse_capped};
ghost use Rattle.patch.specs.Hunk.{hunks_of};
ghost use Rattle.patch.specs.ChangeList.{IsPatch};
ghost use Rattle.patch.specs.Stretches.{Part, part_seen, parts_seen, laid, laid_by, laid_behind, Refuses};

use crate::change::Change;
use crate::check::any_far;
use crate::patch::Patch;
use crate::refusal::PatchRefusal;
use points::{MAX_CHANGES, NoMemory, Point, Range, Units, extent_capped, traverse_capped};
use std::alloc::Global;

/// A stretch of an old text: how far the text stays, and what is taken out and put in behind that.
/// Stretches follow one another, and behind the last one the text stays.
#[derive(Clone, Copy, Debug)]
pub struct Stretch<'a> {
    /// The extent of what stays.
    pub kept: Point,
    /// The units taken out.
    pub old_text: &'a [u16],
    /// The units put in.
    pub new_text: &'a [u16],
}

/// A change that more may join. Its coordinates count no further than a `u32` can.
#[derive(Debug, Drop)]
pub(crate) struct Open {
    pub old_start: Point,
    pub new_start: Point,
    pub old_text: Units,
    pub new_text: Units,
}

impl Patch {
    /// The patch of these stretches of an old text: those with nothing between become one change,
    /// and those with no texts are none. Refused as `TooFar` where a coordinate would pass
    /// [`MAX_COORD`](points::MAX_COORD), else as `TooMany` where there would be more than
    /// [`MAX_CHANGES`] changes.
    pub fn from_stretches(alloc: Global, stretches: &[Stretch<'_>]) -> Result<Self, PatchRefusal>
        ensures made { IfOk result (λ patch. (patch.changes ≡ laid (parts_seen stretches.now))
            × IsPatch (laid (parts_seen stretches.now))) }
        ensures err { IfErr result (Refuses (laid (parts_seen stretches.now))) }
    {
        let changes = laid(alloc, stretches)?;
        if any_far(changes.as_slice()) {
            return Err(PatchRefusal::TooFar);
        }
        if changes.len() > MAX_CHANGES {
            return Err(PatchRefusal::TooMany);
        }
        Ok(Patch { changes })
    }
}

// The changes that the stretches make, with coordinates that count no further than a `u32` can.
fn laid(alloc: Global, stretches: &[Stretch<'_>]) -> Result<Vec<Change>, NoMemory>
    ensures { IfOk result (λ changes. hunks_of changes.items
        ≡ laid_by traverse_capped origin origin [] [] (parts_seen stretches.now)) }
{
    let mut changes = Vec::new(alloc);
    let mut last = Open {
        old_start: Point::default(),
        new_start: Point::default(),
        old_text: Units::new(alloc),
        new_text: Units::new(alloc),
    };
    for stretch in stretches {
        last = with_stretch(alloc, &mut changes, last, *stretch)?;
    }
    close(&mut changes, last)?;
    Ok(changes)
}

// The last change with one stretch more: where something stays before it, it is closed.
fn with_stretch(
    alloc: Global,
    changes: &mut Vec<Change>,
    last: Open,
    stretch: Stretch<'_>,
) -> Result<Open, NoMemory>
    ensures { IfOk result (λ next. (ps : List Part) → hunks_of changes.new.items ++ laid_behind next ps
        ≡ hunks_of changes.old.items ++ laid_behind last (part_seen stretch.entry ∷ ps)) }
{
    let mut last = if stretch.kept == Point::default() {
        last
    } else {
        opened_behind(alloc, changes, last, stretch.kept)?
    };
    last.old_text.append(stretch.old_text)?;
    last.new_text.append(stretch.new_text)?;
    Ok(last)
}

// Closes the last change, and opens one behind what stays.
fn opened_behind(
    alloc: Global,
    changes: &mut Vec<Change>,
    last: Open,
    kept: Point,
) -> Result<Open, NoMemory>
    ensures closed { OnOk result (hunks_of changes.new.items ≡ hunks_of changes.old.items ++ laid_behind last []) }
    ensures old_start { IfOk result (λ next. next.old_start
        ≡ traverse_capped (traverse_capped last.old_start (extent last.old_text)) kept) }
    ensures new_start { IfOk result (λ next. next.new_start
        ≡ traverse_capped (traverse_capped last.new_start (extent last.new_text)) kept) }
    ensures old_text { IfOk result (λ next. next.old_text ≡ []) }
    ensures new_text { IfOk result (λ next. next.new_text ≡ []) }
{
    let next = Open {
        old_start: traverse_capped(end_of(last.old_start, &last.old_text), kept),
        new_start: traverse_capped(end_of(last.new_start, &last.new_text), kept),
        old_text: Units::new(alloc),
        new_text: Units::new(alloc),
    };
    close(changes, last)?;
    Ok(next)
}

// Puts the last change at the end, where it has a text.
fn close(changes: &mut Vec<Change>, last: Open) -> Result<(), NoMemory>
    ensures { OnOk result (hunks_of changes.new.items ≡ hunks_of changes.old.items ++ laid_behind last []) }
{
    if last.old_text.len() == 0 && last.new_text.len() == 0 {
        return Ok(());
    }
    let change = Change {
        old_range: Range::new(last.old_start, end_of(last.old_start, &last.old_text)),
        new_range: Range::new(last.new_start, end_of(last.new_start, &last.new_text)),
        old_text: last.old_text,
        new_text: last.new_text,
    };
    changes.push(change)?;
    Ok(())
}

// Where a text ends that starts at a point.
fn end_of(start: Point, text: &Units) -> Point
    ensures end { result ≡ traverse_capped start (extent text.now) }
    ensures behind { IsTrue (point_le start result) }
{
    traverse_capped(start, extent_capped(text.as_slice()))
}
