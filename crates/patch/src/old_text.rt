//! A patch whose old text changes underneath: which changes are kept, and where they stand after it.
ghost use Rattle.std.specs.Prelude.{◌≡◌, ◌≤◌, false, IsTrue, IfOk, IfErr, IfSome, OnOk, OnErr, option_map};
ghost use Rattle.points.specs.Point.{origin, point_le, traversal, IsWithin};
ghost use Rattle.patch.specs.Hunk.{hunks_of};
ghost use Rattle.patch.specs.ChangeList.{IsPatch};
ghost use Rattle.patch.specs.Stretches.{parts_seen, parts_of, any_far};
ghost use Rattle.patch.specs.MovedOld.{kept_of, kept_start, moved_with, moved_old, RefusesMove};

use crate::change::Change;
use crate::patch::Patch;
use crate::refusal::PatchRefusal;
use crate::stretch::Stretch;
use points::{MAX_COORD, NoMemory, Point, Range, traversal, traverse_capped};
use std::alloc::Global;

impl Patch {
    /// Follows a change of the old text underneath: its range from `start` up to `old_end` becomes
    /// one up to `new_end`. A change that ends at `start` or before it stays, else one that starts
    /// at `old_end` or behind it moves with it, and every other is dropped. Those that come to
    /// touch become one. A refusal leaves the patch as it was; it is never `TooMany`.
    pub fn splice_old(
        &mut self,
        start: Point,
        old_end: Point,
        new_end: Point,
    ) -> Result<(), PatchRefusal>
        requires from_start { IsTrue (point_le start old_end) }
        requires to_start { IsTrue (point_le start new_end) }
        requires near { IsWithin MAX_COORD new_end }
        ensures moved { OnOk result (self.new.changes ≡ moved_old self.old.changes start old_end new_end) }
        ensures reached { OnOk result (any_far (moved_old self.old.changes start old_end new_end) ≡ false) }
        ensures err { IfErr result (RefusesMove (moved_old self.old.changes start old_end new_end)) }
        ensures kept { OnErr result (self.new.changes ≡ self.old.changes) }
    {
        let moved = {
            let kept = kept_stretches(self.allocator(), self.as_slice(), start, old_end, new_end)?;
            Patch::from_stretches(self.allocator(), kept.as_slice())
        };
        match moved {
            Ok(patch) => {
                *self = patch;
                Ok(())
            }
            Err(refusal) => Err(refusal),
        }
    }
}

// The changes that are kept where the old text's range from `start` up to `old_end` becomes one
/// up to `new_end`, as stretches of the old text after that.
fn kept_stretches<'a>(
    alloc: Global,
    changes: &'a [Change],
    start: Point,
    old_end: Point,
    new_end: Point,
) -> Result<Vec<Stretch<'a>>, NoMemory>
    requires patch { IsPatch (hunks_of changes.now) }
    requires from_start { IsTrue (point_le start old_end) }
    requires to_start { IsTrue (point_le start new_end) }
    requires near { IsWithin MAX_COORD new_end }
    ensures { IfOk result (λ kept. parts_seen kept.items
        ≡ parts_of origin (kept_of start old_end new_end (hunks_of changes.now))) }
{
    let mut kept = Vec::with_capacity(alloc, changes.len())?;
    let mut end = Point { row: 0, column: 0 };
    for change in changes {
        let Some(range) = kept_range(change.old_range, start, old_end, new_end) else {
            continue;
        };
        kept.push(Stretch {
            kept: traversal(range.start, end),
            old_text: change.old_text.as_slice(),
            new_text: change.new_text.as_slice(),
        })?;
        end = range.end;
    }
    Ok(kept)
}

// The old range of a kept change: one that ends at `start` or before it stays, else one that starts
// at `old_end` or behind it moves.
fn kept_range(range: Range, start: Point, old_end: Point, new_end: Point) -> Option<Range>
    requires near_start { IsWithin MAX_COORD range.start }
    requires near_end { IsWithin MAX_COORD range.end }
    requires near { IsWithin MAX_COORD new_end }
    ensures start { option_map (λ kept. kept.start) result ≡ kept_start start old_end new_end range.start range.end }
    ensures reach { IfSome result (λ kept. traversal kept.end kept.start ≡ traversal range.end range.start) }
{
    if range.end <= start {
        return Some(range);
    }
    if range.start < old_end {
        return None;
    }
    Some(range_with(range, old_end, new_end))
}

// A range at `old_end` or behind it, moved as `old_end` moves to `new_end`.
fn range_with(range: Range, old_end: Point, new_end: Point) -> Range
    requires behind { IsTrue (point_le old_end range.start) }
    requires near_start { IsWithin MAX_COORD range.start }
    requires near_end { IsWithin MAX_COORD range.end }
    requires near { IsWithin MAX_COORD new_end }
    ensures start { result.start ≡ moved_with old_end new_end range.start }
    ensures reach { traversal result.end result.start ≡ traversal range.end range.start }
{
    Range::new(
        traverse_capped(new_end, traversal(range.start, old_end)),
        traverse_capped(new_end, traversal(range.end, old_end)),
    )
}
