//! The rules that a list of changes keeps, tested at each change in turn.
ghost use Rattle.std.specs.Prelude.{◌≡◌};
ghost use Rattle.points.specs.Point.{origin};
ghost use Rattle.patch.specs.Hunk.{hunk_of, hunks_of};
ghost use Rattle.patch.specs.ChangeList.{reaches_far, is_empty_change, is_behind, has_extents, fault_at, fault_of};
ghost use Rattle.patch.specs.Stretches.{any_far};

use crate::change::Change;
use crate::refusal::ListRefusal;
use points::{MAX_CHANGES, Point, has_extent, traversal};

/// The first change that breaks a rule, with the lowest rule that it breaks.
pub(crate) fn first_fault(changes: &[Change]) -> Option<ListRefusal>
    ensures { result ≡ fault_of (hunks_of changes.now) }
{
    let mut old_end = Point::default();
    let mut new_end = Point::default();
    for (at, change) in changes.iter().enumerate() {
        let refusal = fault_at(at, old_end, new_end, change);
        if refusal.is_some() {
            return refusal;
        }
        old_end = change.old_range.end;
        new_end = change.new_range.end;
    }
    None
}

// The lowest rule that the change at index `at` breaks, where the one before it has these ends.
fn fault_at(at: usize, old_end: Point, new_end: Point, change: &Change) -> Option<ListRefusal>
    ensures { result ≡ fault_at at old_end new_end (hunk_of change.now) }
{
    if !is_behind(old_end, new_end, change) {
        return Some(ListRefusal::NotSorted { at });
    }
    if at > 0 && change.old_range.start == old_end {
        return Some(ListRefusal::NotApart { at });
    }
    if !has_extents(old_end, new_end, change) {
        return Some(ListRefusal::ExtentMismatch { at });
    }
    if change.old_text.len() == 0 && change.new_text.len() == 0 {
        return Some(ListRefusal::EmptyChange { at });
    }
    if reaches_far(change) {
        return Some(ListRefusal::TooFar { at });
    }
    if at == MAX_CHANGES {
        return Some(ListRefusal::TooMany { at });
    }
    None
}

// Whether the change starts behind these ends, or at them.
fn is_behind(old_end: Point, new_end: Point, change: &Change) -> bool
    ensures { result ≡ is_behind old_end new_end (hunk_of change.now) }
{
    old_end <= change.old_range.start && new_end <= change.new_range.start
}

// Whether its texts and the stretch before it have the extents that its ranges tell.
fn has_extents(old_end: Point, new_end: Point, change: &Change) -> bool
    ensures { result ≡ has_extents old_end new_end (hunk_of change.now) }
{
    let old = change.old_range;
    let new = change.new_range;
    traversal(old.start, old_end) == traversal(new.start, new_end)
        && has_extent(change.old_text.as_slice(), traversal(old.end, old.start))
        && has_extent(change.new_text.as_slice(), traversal(new.end, new.start))
}

/// Whether a coordinate of one of the changes passes the greatest one.
pub(crate) fn any_far(changes: &[Change]) -> bool
    ensures { result ≡ any_far (hunks_of changes.now) }
{
    for each in changes {
        if reaches_far(each) {
            return true;
        }
    }
    false
}

// Whether a coordinate of the change passes the greatest one.
fn reaches_far(change: &Change) -> bool
    ensures { result ≡ reaches_far (hunk_of change.now) }
{
    let old = change.old_range;
    let new = change.new_range;
    old.start.is_far() || old.end.is_far() || new.start.is_far() || new.end.is_far()
}
