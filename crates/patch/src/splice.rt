//! One replacement more in the new text of a patch: the change that it makes is put in the place of
//! those that it touches, those behind it move, and the limits are tested before.
ghost use Rattle.std.specs.Prelude.{◌≡◌, ℕ, ◌+◌, ◌-◌, ◌<◌, ◌≤◌, ◌++◌, ◌∷◌, ◌||◌, List, [], length, take, drop, map, Bool, false, IsTrue, IfErr, OnOk, OnErr, MatchOption};
ghost use Rattle.std.specs.List.{All};
ghost use Rattle.points.specs.Point.{point_le, traverse, traversal};
ghost use Rattle.points.specs.Distance.{is_far};
ghost use Rattle.patch.specs.Hunk.{Hunk, hunk_of, hunks_of};
ghost use Rattle.patch.specs.ChangeList.{IsOrdered, IsPatch};
ghost use Rattle.patch.specs.Stretches.{any_far, Refuses};
ghost use Rattle.patch.specs.Spliced.{moved_hunk, spliced};
ghost use Rattle.patch.specs.Splicing.{CanSplice, IsSpliced, StandsForRun, StandsForMore, KeepsLimits};
ghost use Rattle.patch.specs.Joints.{Joins, is_empty_joint, is_far_joint, joint_change, joint_list};

use crate::change::Change;
use crate::joint::{Joint, make_joint};
use crate::patch::Patch;
use crate::refusal::PatchRefusal;
use points::{MAX_CHANGES, NoMemory, Point, Range, traversal, traverse, traverse_near};

impl Patch {
    /// In the new text, replaces `deleted` at `start` by `inserted`: the patch becomes that of the
    /// whole run. Some text that the patch fits must have `deleted` there in what the patch makes of
    /// it. Refused as `TooFar` where a coordinate would pass [`MAX_COORD`](points::MAX_COORD), else as
    /// `TooMany` above [`MAX_CHANGES`] changes. A refusal leaves the patch as it was.
    pub fn splice(
        &mut self,
        start: Point,
        deleted: &[u16],
        inserted: &[u16],
    ) -> Result<(), PatchRefusal>
        requires { CanSplice self.old.changes start deleted.now }
        ensures run { OnOk result (IsSpliced self.old.changes start deleted.now inserted.now self.new.changes) }
        ensures stands { OnOk result (StandsForRun self.old.changes start deleted.now inserted.now self.new.changes) }
        ensures stands_for_more { OnOk result
            (StandsForMore self.old.changes start deleted.now inserted.now self.new.changes) }
        ensures within { OnOk result (KeepsLimits self.new.changes) }
        ensures err { IfErr result (λ refusal. (run : List Hunk)
            × IsSpliced self.old.changes start deleted.now inserted.now run × Refuses run refusal) }
        ensures kept { OnErr result (self.new.changes ≡ self.old.changes) }
    {
        splice_changes(&mut self.changes, start, deleted, inserted)
    }
}

// Makes the changes what they are after `deleted` at `start` was replaced by `inserted`. A refusal
// leaves them as they were.
fn splice_changes(
    changes: &mut Vec<Change>,
    start: Point,
    deleted: &[u16],
    inserted: &[u16],
) -> Result<(), PatchRefusal>
    requires { IsPatch (hunks_of changes.old.items)
        × All IsOrdered (spliced (hunks_of changes.old.items) start deleted.now inserted.now) }
    ensures ok { OnOk result (hunks_of changes.new.items
        ≡ spliced (hunks_of changes.old.items) start deleted.now inserted.now) }
    ensures within { OnOk result (KeepsLimits (spliced (hunks_of changes.old.items) start deleted.now inserted.now)) }
    ensures err { IfErr result (Refuses (spliced (hunks_of changes.old.items) start deleted.now inserted.now)) }
    ensures kept { OnErr result (changes.new.items ≡ changes.old.items) }
{
    let alloc = *changes.allocator();
    let joint = make_joint(alloc, changes.as_slice(), start, deleted, inserted)?;
    if let Some(refusal) = refusal_of(changes.as_slice(), &joint) {
        return Err(refusal);
    }
    put(changes, joint)?;
    Ok(())
}

// Why there is no patch with the joint in its place.
fn refusal_of(changes: &[Change], joint: &Joint) -> Option<PatchRefusal>
    requires { IsPatch (hunks_of changes.now) × (joint.now.first ≤ joint.now.stop)
        × (joint.now.stop ≤ length changes.now) }
    ensures { (q : List Hunk) → Joins (hunks_of changes.now) q joint.now
        → MatchOption result (KeepsLimits (take joint.now.first (hunks_of changes.now)
        ++ q)) (Refuses (take joint.now.first (hunks_of changes.now) ++ q)) }
{
    if passes_far(changes, joint) {
        return Some(PatchRefusal::TooFar);
    }
    if joint.first + joint_count(joint) + (changes.len() - joint.stop) > MAX_CHANGES {
        return Some(PatchRefusal::TooMany);
    }
    None
}

// Whether a coordinate would pass the greatest one.
fn passes_far(changes: &[Change], joint: &Joint) -> bool
    requires { IsPatch (hunks_of changes.now) × (joint.now.stop ≤ length changes.now) }
    ensures { result ≡ (is_far_joint joint.now
        || any_far (map (moved_hunk joint.now.from joint.now.new_end) (hunks_of (drop joint.now.stop changes.now)))) }
{
    is_far_joint(joint) || any_moved_far(changes, joint.stop, joint.from, joint.new_end)
}

// Whether the joint is no change: both its texts are empty.
fn is_empty_joint(joint: &Joint) -> bool
    ensures { result ≡ is_empty_joint joint.now }
{
    joint.old_text.len() == 0 && joint.new_text.len() == 0
}

// How many changes the joint is.
fn joint_count(joint: &Joint) -> usize
    ensures { result ≡ length (joint_change joint.now) }
{
    if is_empty_joint(joint) { 0 } else { 1 }
}

// Whether the joint is a change with a coordinate that passes the greatest one.
fn is_far_joint(joint: &Joint) -> bool
    ensures { result ≡ is_far_joint joint.now }
{
    !is_empty_joint(joint)
        && (joint.old_start.is_far()
            || joint.old_end.is_far()
            || joint.new_start.is_far()
            || joint.new_end.is_far())
}

// Whether a coordinate of a change from index `first` on passes the greatest one, where they move
// with the point `from` of the new text that becomes `to`.
fn any_moved_far(changes: &[Change], first: usize, from: Point, to: Point) -> bool
    requires { (first ≤ length changes.now) × (any_far (hunks_of changes.now) ≡ false) }
    ensures { result ≡ any_far (map (moved_hunk from to) (hunks_of (drop first changes.now))) }
{
    for at in first..changes.len() {
        if range_far(changes[at].new_range, from, to) {
            return true;
        }
    }
    false
}

// Whether a coordinate of the moved range passes the greatest one.
fn range_far(range: Range, from: Point, to: Point) -> bool
    ensures { result ≡ (is_far (traverse to (traversal range.start from))
        || is_far (traverse to (traversal range.end from))) }
{
    traverse_near(to, traversal(range.start, from)).is_none()
        || traverse_near(to, traversal(range.end, from)).is_none()
}

// Puts the joint in its place, and moves the changes behind it. A refusal leaves them as they were.
fn put(changes: &mut Vec<Change>, joint: Joint) -> Result<(), NoMemory>
    requires { (joint.first ≤ joint.stop) × (joint.stop ≤ length changes.old.items)
        × All IsOrdered (joint_list joint (hunks_of changes.old.items))
        × (any_far (joint_list joint (hunks_of changes.old.items)) ≡ false) }
    ensures ok { OnOk result (hunks_of changes.new.items ≡ take joint.first (hunks_of changes.old.items)
        ++ joint_list joint (hunks_of changes.old.items)) }
    ensures err { OnErr result (changes.new.items ≡ changes.old.items) }
{
    let from = joint.from;
    let to = joint.new_end;
    let behind = joint.first + joint_count(&joint);
    set_in(changes, joint)?;
    move_behind(changes, behind, from, to);
    Ok(())
}

// Puts the joint in its place.
fn set_in(changes: &mut Vec<Change>, joint: Joint) -> Result<(), NoMemory>
    requires { (joint.first ≤ joint.stop) × (joint.stop ≤ length changes.old.items)
        × All IsOrdered (joint_change joint) }
    ensures ok { OnOk result (hunks_of changes.new.items ≡ take joint.first (hunks_of changes.old.items)
        ++ (joint_change joint ++ drop joint.stop (hunks_of changes.old.items))) }
    ensures err { OnErr result (changes.new.items ≡ changes.old.items) }
{
    let first = joint.first;
    let stop = joint.stop;
    if is_empty_joint(&joint) {
        remove_run(changes, first, stop);
        return Ok(());
    }
    replace_run(changes, first, stop, change_of(joint))
}

// Removes the changes from index `first` up to index `stop`.
fn remove_run(changes: &mut Vec<Change>, first: usize, stop: usize)
    requires { (first ≤ stop) × (stop ≤ length changes.old.items) }
    ensures { changes.new.items ≡ take first changes.old.items ++ drop stop changes.old.items }
{
    drop(changes.drain(first..stop));
}

// Puts the change in the place of those from index `first` up to index `stop`.
fn replace_run(
    changes: &mut Vec<Change>,
    first: usize,
    stop: usize,
    change: Change,
) -> Result<(), NoMemory>
    requires { (first ≤ stop) × (stop ≤ length changes.old.items) }
    ensures ok { OnOk result (changes.new.items ≡ take first changes.old.items ++ change
        ∷ drop stop changes.old.items) }
    ensures err { OnErr result (changes.new.items ≡ changes.old.items) }
{
    if first == stop {
        changes.insert(first, change)?;
        return Ok(());
    }
    changes[first] = change;
    remove_run(changes, first + 1, stop);
    Ok(())
}

// The change that the joint is.
fn change_of(joint: Joint) -> Change
    requires { IsTrue (point_le joint.old_start joint.old_end) × IsTrue (point_le joint.new_start joint.new_end) }
    ensures { hunk_of result ≡ record {
      old_start = joint.old_start;
      old_end = joint.old_end;
      new_start = joint.new_start;
      new_end = joint.new_end;
      old_text = joint.old_text;
      new_text = joint.new_text;
    } }
{
    Change {
        old_range: Range::new(joint.old_start, joint.old_end),
        new_range: Range::new(joint.new_start, joint.new_end),
        old_text: joint.old_text,
        new_text: joint.new_text,
    }
}

// Moves the changes from index `first` on with the point `from` of the new text that becomes `to`.
fn move_behind(changes: &mut Vec<Change>, first: usize, from: Point, to: Point)
    requires { (first ≤ length changes.old.items)
        × All IsOrdered (map (moved_hunk from to) (hunks_of (drop first changes.old.items)))
        × (any_far (map (moved_hunk from to) (hunks_of (drop first changes.old.items))) ≡ false) }
    ensures { hunks_of changes.new.items ≡ take first (hunks_of changes.old.items)
        ++ map (moved_hunk from to) (hunks_of (drop first changes.old.items)) }
{
    for at in first..changes.len() {
        let range = changes[at].new_range;
        changes[at].new_range = moved_range(range, from, to);
    }
}

// The range moved so.
fn moved_range(range: Range, from: Point, to: Point) -> Range
    requires { (is_far (traverse to (traversal range.start from)) ≡ false)
        × (is_far (traverse to (traversal range.end from)) ≡ false)
        × IsTrue (point_le (traverse to (traversal range.start from)) (traverse to (traversal range.end from))) }
    ensures start { result.start ≡ traverse to (traversal range.start from) }
    ensures end { result.end ≡ traverse to (traversal range.end from) }
{
    Range::new(
        traverse(to, traversal(range.start, from)),
        traverse(to, traversal(range.end, from)),
    )
}
