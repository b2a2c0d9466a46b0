//! Which changes replaced units of the new text absorb, and the old units that stand behind them.
ghost use Rattle.std.specs.Prelude.{◌≡◌, ℕ, ◌+◌, ◌<◌, ◌≤◌, ◌++◌, [], ◌∷◌, length, take, drop, slice_index_or, Option, Some, IfOk, MatchOption};
ghost use Rattle.points.specs.Point.{traversal};
ghost use Rattle.points.specs.Place.{offset_of};
ghost use Rattle.patch.specs.Hunk.{hunks_of};
ghost use Rattle.patch.specs.Spliced.{absorption, absorption_made};
ghost use Rattle.patch.specs.declared.change.Change.{Change};

use crate::change::Change;
use points::{NoMemory, Point, Units, offset_of, traversal};

/// What replaced units absorb, from a change of a list on.
#[derive(Drop)]
pub(crate) struct Absorbed<'a> {
    /// The index of the first change behind them.
    pub stop: usize,
    /// The old units in the place of the replaced ones and of the changes that they absorb.
    pub old_text: Units,
    /// The new units of the last absorbed change that stand behind them.
    pub post: &'a [u16],
}

/// What the units `deleted` absorb of the changes from index `first` on, where they start at the point
/// `start` of the new text. The old units come behind `old_text`.
pub(crate) fn absorb<'a>(
    changes: &'a [Change],
    first: usize,
    start: Point,
    deleted: &[u16],
    old_text: Units,
) -> Result<Absorbed<'a>, NoMemory>
    requires { first ≤ length changes.now }
    ensures stop { IfOk result (λ found. (first ≤ found.stop) × (found.stop ≤ length changes.now)) }
    ensures old_text { IfOk result (λ found. found.old_text ≡ old_text
        ++ (absorption start deleted.now (hunks_of (drop first changes.now))).mid) }
    ensures post { IfOk result (λ found. found.post.now
        ≡ (absorption start deleted.now (hunks_of (drop first changes.now))).post) }
    ensures rest { IfOk result (λ found. hunks_of (drop found.stop changes.now)
        ≡ (absorption start deleted.now (hunks_of (drop first changes.now))).rest) }
{
    let mut old_text = old_text;
    let mut stop = first;
    let mut place = start;
    let mut passed = 0usize;
    while let Some(kept) = kept_before(changes, stop, place, deleted, passed) {
        let change = &changes[stop];
        take_in(&mut old_text, deleted, passed, kept, change)?;
        stop += 1;
        passed += kept;
        let behind = deleted.len() - passed;
        let new_text = change.new_text.as_slice();
        if behind <= new_text.len() {
            return Ok(Absorbed {
                stop,
                old_text,
                post: &new_text[behind..],
            });
        }
        passed += new_text.len();
        place = change.new_range.end;
    }
    old_text.append(&deleted[passed..])?;
    Ok(Absorbed {
        stop,
        old_text,
        post: &[],
    })
}

// How many of the units behind the first `passed`, which start at `place`, stand before the change
// at index `at`. None where they end before it, or there is no such change.
fn kept_before(
    changes: &[Change],
    at: usize,
    place: Point,
    deleted: &[u16],
    passed: usize,
) -> Option<usize>
    requires { (at ≤ length changes.now) × (passed ≤ length deleted.now) }
    ensures { MatchOption result (absorption place (drop passed deleted.now) (hunks_of (drop at changes.now))
        ≡ absorption_made (drop passed deleted.now) [] (hunks_of (drop at changes.now)))
        (λ kept. (at < length changes.now) × (passed + kept ≤ length deleted.now)
        × ((d : Change) → offset_of (drop passed deleted.now)
        (traversal (slice_index_or changes.now at d).new_range.start place) ≡ Some kept)) }
{
    if at == changes.len() {
        return None;
    }
    offset_of(
        &deleted[passed..],
        traversal(changes[at].new_range.start, place),
    )
}

// Puts `kept` of the units behind the first `passed`, and the change's old ones, at the end.
fn take_in(
    old_text: &mut Units,
    deleted: &[u16],
    passed: usize,
    kept: usize,
    change: &Change,
) -> Result<(), NoMemory>
    requires { passed + kept ≤ length deleted.now }
    ensures { IfOk result (λ _. old_text.new ≡ old_text.old
        ++ (take kept (drop passed deleted.now) ++ change.now.old_text)) }
{
    old_text.append(&deleted[passed..passed + kept])?;
    old_text.append(change.old_text.as_slice())
}
