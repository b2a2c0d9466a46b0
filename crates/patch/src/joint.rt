//! The change that a replacement in the new text makes of those that it touches.
ghost use Rattle.std.specs.Prelude.{◌≡◌, ℕ, ◌+◌, ◌<◌, ◌≤◌, ◌++◌, List, [], length, take, drop, slice_index_or, IsTrue, IfOk};
ghost use Rattle.points.specs.declared.point.Point.{Point};
ghost use Rattle.points.specs.Point.{origin, point_le, traverse, traversal};
ghost use Rattle.points.specs.Place.{extent};
ghost use Rattle.points.specs.Distance.{capped};
ghost use Rattle.patch.specs.Hunk.{Hunk, hunk_of, hunks_of};
ghost use Rattle.patch.specs.ChangeList.{IsPatch};
ghost use Rattle.patch.specs.Spliced.{absorption, spliced, spliced_in, spliced_before, spliced_from, units_before};
ghost use Rattle.patch.specs.Joints.{last_old_end, last_new_end, Joins};
ghost use Rattle.patch.specs.declared.change.Change.{Change};

use crate::absorb::{Absorbed, absorb};
use crate::change::Change;
use points::{NoMemory, Point, Units, led_by, offset_of, traversal, traverse_capped};
use std::alloc::Global;

/// The change that a replacement makes, and where it stands in the list. A coordinate that passes
/// 2^32 - 1 stays there.
#[derive(Drop)]
pub(crate) struct Joint {
    /// The index of the first change that it takes the place of, or before which it stands.
    pub first: usize,
    /// The index of the first change behind it.
    pub stop: usize,
    pub old_start: Point,
    pub old_end: Point,
    pub new_start: Point,
    pub new_end: Point,
    /// The point of the new text, before the replacement, that becomes `new_end`.
    pub from: Point,
    pub old_text: Units,
    pub new_text: Units,
}

/// The change that `inserted` in the place of `deleted` at `start` makes.
pub(crate) fn make_joint(
    alloc: Global,
    changes: &[Change],
    start: Point,
    deleted: &[u16],
    inserted: &[u16],
) -> Result<Joint, NoMemory>
    requires { IsPatch (hunks_of changes.now) }
    ensures { IfOk result (λ joint. (q : List Hunk) × (spliced (hunks_of changes.now) start deleted.now inserted.now
        ≡ take joint.first (hunks_of changes.now) ++ q) × Joins (hunks_of changes.now) q joint) }
{
    let first = first_reaching(changes, start);
    if first < changes.len() && starts_by(&changes[first], start) {
        joint_in(alloc, changes, first, start, deleted, inserted)
    } else {
        joint_before(alloc, changes, first, start, deleted, inserted)
    }
}

// Whether the change's new range starts at the point or before it.
fn starts_by(change: &Change, point: Point) -> bool
    ensures { result ≡ point_le change.now.new_range.start point }
{
    change.new_range.start <= point
}

// The first change whose new range ends at `start` or behind it.
fn first_reaching(changes: &[Change], start: Point) -> usize
    requires { IsPatch (hunks_of changes.now) }
    ensures within { result ≤ length changes.now }
    ensures value { (deleted inserted : List ℕ) → spliced (hunks_of changes.now) start deleted inserted
        ≡ take result (hunks_of changes.now)
        ++ spliced_from (last_old_end origin (take result (hunks_of changes.now)))
        (last_new_end origin (take result (hunks_of changes.now))) start deleted inserted
        (hunks_of (drop result changes.now)) }
    ensures reaches { result < length changes.now → (d : Change)
        → IsTrue (point_le start (slice_index_or changes.now result d).new_range.end) }
{
    changes.partition_point(|change| change.new_range.end < start)
}

// The joint of a replacement that starts in the change at index `first`, or at one of its ends.
fn joint_in(
    alloc: Global,
    changes: &[Change],
    first: usize,
    start: Point,
    deleted: &[u16],
    inserted: &[u16],
) -> Result<Joint, NoMemory>
    requires { first < length changes.now }
    ensures first { IfOk result (λ joint. joint.first ≡ first) }
    ensures joins { IfOk result (λ joint. (d : Change) → Joins (hunks_of changes.now)
        (spliced_in start deleted.now inserted.now (hunk_of (slice_index_or changes.now first d))
        (hunks_of (drop (first + 1) changes.now))) joint) }
{
    let change = &changes[first];
    let before = units_before(change, start);
    let found = absorb_from(changes, first, before.len(), deleted)?;
    let starts = Starts {
        old: change.old_range.start,
        new: change.new_range.start,
    };
    joint_of(alloc, first, starts, before, deleted, inserted, found)
}

// The new units of the change before `start`.
fn units_before(change: &Change, start: Point) -> &[u16]
    ensures units { result.now ≡ units_before start (hunk_of change.now) }
    ensures within { length result.now ≤ length change.now.new_text }
{
    let units = change.new_text.as_slice();
    match offset_of(units, traversal(start, change.new_range.start)) {
        Some(at) => &units[..at],
        None => &units[..0],
    }
}

// What is absorbed from the change at index `at` on, by its first `before` new units and `deleted`
// behind them.
fn absorb_from<'a>(
    changes: &'a [Change],
    at: usize,
    before: usize,
    deleted: &[u16],
) -> Result<Absorbed<'a>, NoMemory>
    requires { (at < length changes.now)
        × ((d : Change) → before ≤ length (slice_index_or changes.now at d).new_text) }
    ensures stop { IfOk result (λ found. (at ≤ found.stop) × (found.stop ≤ length changes.now)) }
    ensures absorbed { IfOk result (λ found. (d : Change) (pre : List ℕ) → length pre ≡ before
        → (found.old_text ≡ (absorption (slice_index_or changes.now at d).new_range.start (pre
        ++ deleted.now) (hunks_of (drop at changes.now))).mid)
        × (found.post.now ≡ (absorption (slice_index_or changes.now at d).new_range.start (pre
        ++ deleted.now) (hunks_of (drop at changes.now))).post)
        × (hunks_of (drop found.stop changes.now)
        ≡ (absorption (slice_index_or changes.now at d).new_range.start (pre
        ++ deleted.now) (hunks_of (drop at changes.now))).rest)) }
{
    let change = &changes[at];
    let new_text = change.new_text.as_slice();
    let behind = new_text.len() - before;
    let old_text = change.old_text.try_clone()?;
    if deleted.len() <= behind {
        return Ok(Absorbed {
            stop: at + 1,
            old_text,
            post: &new_text[before + deleted.len()..],
        });
    }
    absorb(
        changes,
        at + 1,
        change.new_range.end,
        &deleted[behind..],
        old_text,
    )
}

// The joint of a replacement that starts behind the changes before index `first`, and before the
// change there.
fn joint_before(
    alloc: Global,
    changes: &[Change],
    first: usize,
    start: Point,
    deleted: &[u16],
    inserted: &[u16],
) -> Result<Joint, NoMemory>
    requires { first ≤ length changes.now }
    ensures first { IfOk result (λ joint. joint.first ≡ first) }
    ensures joins { IfOk result (λ joint. Joins (hunks_of changes.now)
        (spliced_before (last_old_end origin (take first (hunks_of changes.now)))
        (last_new_end origin (take first (hunks_of changes.now))) start deleted.now inserted.now
        (hunks_of (drop first changes.now))) joint) }
{
    let found = absorb(changes, first, start, deleted, Units::new(alloc))?;
    let starts = Starts {
        old: old_place(changes, first, start),
        new: start,
    };
    joint_of(alloc, first, starts, &[], deleted, inserted, found)
}

// The point of the old text at the point `start` of the new one, which stands behind the changes
// before index `first`.
fn old_place(changes: &[Change], first: usize, start: Point) -> Point
    requires { first ≤ length changes.now }
    ensures { result ≡ capped (traverse (last_old_end origin (take first (hunks_of changes.now)))
        (traversal start (last_new_end origin (take first (hunks_of changes.now))))) }
{
    if first == 0 {
        return traverse_capped(Point::default(), traversal(start, Point::default()));
    }
    let change = &changes[first - 1];
    traverse_capped(change.old_range.end, traversal(start, change.new_range.end))
}

// Where a joint starts, in the old and in the new text.
#[derive(Clone, Copy)]
struct Starts {
    old: Point,
    new: Point,
}

// The joint of the units `before`, of `inserted` and of what stands behind the absorbed units.
fn joint_of(
    alloc: Global,
    first: usize,
    starts: Starts,
    before: &[u16],
    deleted: &[u16],
    inserted: &[u16],
    found: Absorbed<'_>,
) -> Result<Joint, NoMemory>
    ensures list { IfOk result (λ joint. (joint.first ≡ first) × (joint.stop ≡ found.entry.stop)) }
    ensures texts { IfOk result (λ joint. (joint.old_text ≡ found.entry.old_text)
        × (joint.new_text ≡ before.now ++ inserted.now ++ found.entry.post.now)) }
    ensures within { (capped starts.old ≡ starts.old) × (capped starts.new ≡ starts.new) }
    ensures starts { IfOk result (λ joint. (joint.old_start ≡ starts.old) × (joint.new_start ≡ starts.new)) }
    ensures old_end { IfOk result (λ joint. (p : Point) → starts.old ≡ capped p → joint.old_end
        ≡ capped (traverse p (extent found.entry.old_text))) }
    ensures new_end { IfOk result (λ joint. joint.new_end
        ≡ capped (traverse starts.new (extent (before.now ++ inserted.now ++ found.entry.post.now)))) }
    ensures from { IfOk result (λ joint. joint.from
        ≡ capped (traverse starts.new (extent (before.now ++ deleted.now ++ found.entry.post.now)))) }
{
    let Absorbed {
        stop,
        old_text,
        post,
    } = found;
    let mut new_text = Units::new(alloc);
    new_text.append(before)?;
    new_text.append(inserted)?;
    new_text.append(post)?;
    Ok(Joint {
        first,
        stop,
        old_start: starts.old,
        old_end: led_by(starts.old, old_text.as_slice()),
        new_start: starts.new,
        new_end: led_by(starts.new, new_text.as_slice()),
        from: led_by(led_by(led_by(starts.new, before), deleted), post),
        old_text,
        new_text,
    })
}
