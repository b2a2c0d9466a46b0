//! The patch of two patches in turn, merged in one pass over their changes.
ghost use Rattle.std.specs.Prelude.{◌≡◌, ◌+◌, ◌-◌, ◌≤◌, ◌<◌, ◌++◌, [], ◌∷◌, List, length, take, drop, map, slice_index_or, IsTrue, IfOk, IfErr, OnOk, MatchOption};
ghost use Rattle.points.specs.Point.{origin, traversal};
ghost use Rattle.points.specs.Place.{offset_of};
ghost use Rattle.patch.specs.Hunk.{Hunk, hunk_seen};
ghost use Rattle.patch.specs.Stretches.{part_seen, parts_seen, Refuses};
ghost use Rattle.patch.specs.Splicing.{KeepsLimits};
ghost use Rattle.patch_algebra.specs.declared.middle.Middle.{Middle};
ghost use Rattle.patch_algebra.specs.Composing.{CanCompose, IsComposed, DoesBoth};
ghost use Rattle.patch_algebra.specs.Merging.{between, between_seen, betweens_seen, part_to, parts_between, Opens, stops_at, opening, removal_made, removal, merged, taken_out, left_of, left_behind, cut_offset};

use crate::middle::{Middle, middles_of};
use patch::laws::rules_are_kept;
use patch::{ChangeView, Patch, PatchRefusal, Stretch};
use points::{NoMemory, Point, offset_of, traversal};
use std::alloc::Global;

/// The patch that does what `first` and then `second` do. Some text must fit the first, and what
/// that makes of it the second; no text is built. Refused as `TooFar` where a coordinate of the
/// result would pass [`MAX_COORD`](points::MAX_COORD), else as `TooMany` where it would have more
/// than [`MAX_CHANGES`](patch::MAX_CHANGES) changes.
pub fn compose(alloc: Global, first: &Patch, second: &Patch) -> Result<Patch, PatchRefusal>
    requires { CanCompose first.now.changes second.now.changes }
    ensures made { IfOk result (λ patch. IsComposed first.now.changes second.now.changes patch.changes) }
    ensures in_turn { IfOk result (λ patch. DoesBoth first.now.changes second.now.changes patch.changes) }
    ensures within { IfOk result (λ patch. KeepsLimits patch.changes) }
    ensures err { IfErr result (λ refusal. (changes : List Hunk)
        × IsComposed first.now.changes second.now.changes changes × Refuses changes refusal) }
{
    rules_are_kept(first);
    rules_are_kept(second);
    let stretches = match merged(alloc, first, second) {
        Ok(stretches) => stretches,
        Err(_) => return Err(PatchRefusal::NoMemory),
    };
    Patch::from_stretches(alloc, stretches.as_slice())
}

// The stretches of the first patch's old text that both make in turn.
fn merged<'a>(
    alloc: Global,
    first: &'a Patch,
    second: &'a Patch,
) -> Result<Vec<Stretch<'a>>, NoMemory>
    ensures { IfOk result (λ stretches. parts_seen stretches.items
        ≡ merged origin (map between first.now.changes) second.now.changes) }
{
    let mut middles = middles_of(alloc, first)?;
    let mut stretches = Vec::new(alloc);
    let mut reached = Reached {
        at: 0,
        place: Point::default(),
    };
    for change in second.changes() {
        reached = replace(&mut stretches, &mut middles, reached, change)?;
    }
    finish(&mut stretches, middles.as_slice(), reached)?;
    Ok(stretches)
}

// How far the merge came: the index of the first change that is left of the first patch, and the
// place in the text between.
#[derive(Clone, Copy)]
struct Reached {
    at: usize,
    place: Point,
}

// One change of the second patch more, and what stands before it.
fn replace<'a>(
    stretches: &mut Vec<Stretch<'a>>,
    middles: &mut Vec<Middle<'a>>,
    reached: Reached,
    change: ChangeView<'a>,
) -> Result<Reached, NoMemory>
    requires { reached.at ≤ length middles.old.items }
    ensures within { IfOk result (λ next. next.at ≤ length middles.new.items) }
    ensures merged { IfOk result (λ next. (qs : List Hunk) → parts_seen stretches.new.items
        ++ merged next.place (betweens_seen (drop next.at middles.new.items)) qs
        ≡ parts_seen stretches.old.items
        ++ merged reached.place (betweens_seen (drop reached.at middles.old.items)) (hunk_seen change.entry
        ∷ qs)) }
{
    let start = change.old_range.start;
    let reached = open_at(stretches, middles, reached, start)?;
    stretches.push(Stretch {
        kept: traversal(start, reached.place),
        old_text: &[],
        new_text: change.new_text,
    })?;
    let at = take_out(stretches, middles, reached.at, change)?;
    Ok(Reached {
        at,
        place: change.old_range.end,
    })
}

// Passes what stands before a place. A change that reaches past it is cut there.
fn open_at<'a>(
    stretches: &mut Vec<Stretch<'a>>,
    middles: &mut Vec<Middle<'a>>,
    reached: Reached,
    to: Point,
) -> Result<Reached, NoMemory>
    requires { reached.at ≤ length middles.old.items }
    ensures within { IfOk result (λ next. next.at ≤ length middles.new.items) }
    ensures parts { IfOk result (λ next. parts_seen stretches.new.items ≡ parts_seen stretches.old.items
        ++ (opening reached.place to (betweens_seen (drop reached.at middles.old.items))).parts) }
    ensures place { IfOk result (λ next. next.place
        ≡ (opening reached.place to (betweens_seen (drop reached.at middles.old.items))).place) }
    ensures rest { IfOk result (λ next. betweens_seen (drop next.at middles.new.items)
        ≡ (opening reached.place to (betweens_seen (drop reached.at middles.old.items))).rest) }
{
    let reached = pass(stretches, middles.as_slice(), reached, to)?;
    if reached.at == middles.len() || to <= middles[reached.at].start {
        return Ok(reached);
    }
    cut(stretches, middles, reached, to)
}

// Passes the changes that start before a place and don't reach past it.
fn pass<'a>(
    stretches: &mut Vec<Stretch<'a>>,
    middles: &[Middle<'a>],
    reached: Reached,
    to: Point,
) -> Result<Reached, NoMemory>
    requires { reached.at ≤ length middles.now }
    ensures within { IfOk result (λ next. next.at ≤ length middles.now) }
    ensures opens { IfOk result (λ next. Opens to (parts_seen stretches.old.items) reached.place
        (betweens_seen (drop reached.at middles.now))
        (parts_seen stretches.new.items) next.place (betweens_seen (drop next.at middles.now))) }
    ensures stops { IfOk result (λ next. IsTrue (stops_at to (betweens_seen (drop next.at middles.now)))) }
{
    let mut reached = reached;
    while reached.at < middles.len() {
        let middle = middles[reached.at];
        if to <= middle.start || to < middle.end {
            break;
        }
        stretches.push(middle.behind(reached.place))?;
        reached = Reached {
            at: reached.at + 1,
            place: middle.end,
        };
    }
    Ok(reached)
}

// Passes what stands before a place of a change that reaches past it, and leaves the rest.
fn cut<'a>(
    stretches: &mut Vec<Stretch<'a>>,
    middles: &mut Vec<Middle<'a>>,
    reached: Reached,
    to: Point,
) -> Result<Reached, NoMemory>
    requires { reached.at < length middles.old.items }
    ensures at { IfOk result (λ next. next.at ≡ reached.at) }
    ensures place { IfOk result (λ next. next.place ≡ to) }
    ensures parts { IfOk result (λ next. (d : Middle) →
        let m = between_seen (slice_index_or middles.old.items reached.at d) in parts_seen stretches.new.items
        ≡ parts_seen stretches.old.items
        ++ part_to reached.place m.start m.old_text (take (cut_offset to m) m.new_text) ∷ []) }
    ensures rest { IfOk result (λ next. (d : Middle) →
        let m = between_seen (slice_index_or middles.old.items reached.at d) in
        (length middles.new.items ≡ length middles.old.items) × (betweens_seen (drop reached.at middles.new.items)
        ≡ left_of to m (drop (cut_offset to m) m.new_text)
        ∷ betweens_seen (drop (reached.at + 1) middles.old.items))) }
{
    let middle = middles[reached.at];
    let (before, behind) = middle.cut_at(to);
    stretches.push(Stretch {
        kept: traversal(middle.start, reached.place),
        old_text: middle.old_text,
        new_text: before,
    })?;
    middles[reached.at] = middle.left(to, behind);
    Ok(Reached {
        at: reached.at,
        place: to,
    })
}

// Takes out what stands behind the old text of a change of the second patch. Answers the index of
// the first change that is left.
fn take_out<'a>(
    stretches: &mut Vec<Stretch<'a>>,
    middles: &mut Vec<Middle<'a>>,
    at: usize,
    change: ChangeView<'a>,
) -> Result<usize, NoMemory>
    requires { at ≤ length middles.old.items }
    ensures within { IfOk result (λ next. next ≤ length middles.new.items) }
    ensures parts { IfOk result (λ next. parts_seen stretches.new.items ≡ parts_seen stretches.old.items
        ++ (removal change.entry.old_range.end change.entry.old_range.start change.entry.old_text.now
        (betweens_seen (drop at middles.old.items))).parts) }
    ensures rest { IfOk result (λ next. betweens_seen (drop next middles.new.items)
        ≡ (removal change.entry.old_range.end change.entry.old_range.start change.entry.old_text.now
        (betweens_seen (drop at middles.old.items))).rest) }
{
    let removed = remove(
        stretches,
        middles.as_slice(),
        at,
        change.old_range.start,
        change.old_text,
    )?;
    if removed.left.len() == 0 {
        return Ok(removed.stop);
    }
    let last = removed.stop - 1;
    let middle = middles[last];
    middles[last] = middle.left(change.old_range.end, removed.left);
    Ok(last)
}

// What the removal of units of the text between leaves: the index of the first change behind them, and
// what is left of the new text of the change before it.
#[derive(Clone, Copy)]
struct Removed<'a> {
    stop: usize,
    left: &'a [u16],
}

// Takes out what stands behind the units `deleted`, which start at the place `start`.
fn remove<'a>(
    stretches: &mut Vec<Stretch<'a>>,
    middles: &[Middle<'a>],
    at: usize,
    start: Point,
    deleted: &'a [u16],
) -> Result<Removed<'a>, NoMemory>
    requires { at ≤ length middles.now }
    ensures stop { IfOk result (λ removed. removed.stop ≤ length middles.now) }
    ensures left { IfOk result (λ removed. 0 < length removed.left.now → 0 < removed.stop) }
    ensures parts { IfOk result (λ removed. (end : Point) → parts_seen stretches.new.items
        ≡ parts_seen stretches.old.items
        ++ (removal end start deleted.entry.now (betweens_seen (drop at middles.now))).parts) }
    ensures rest { IfOk result (λ removed. (end : Point) (d : Middle)
        → left_behind end (between_seen (slice_index_or middles.now (removed.stop - 1) d)) removed.left.now
        (betweens_seen (drop removed.stop middles.now))
        ≡ (removal end start deleted.entry.now (betweens_seen (drop at middles.now))).rest) }
{
    let mut stop = at;
    let mut place = start;
    let mut units = deleted;
    while let Some(kept) = kept_before(middles, stop, place, units) {
        let middle = middles[stop];
        let (before, behind) = units.split_at(kept);
        stretches.push(taken_out(before))?;
        stretches.push(taken_out(middle.old_text))?;
        stop += 1;
        if behind.len() <= middle.new_text.len() {
            let (_, left) = middle.new_text.split_at(behind.len());
            return Ok(Removed { stop, left });
        }
        units = behind.split_at(middle.new_text.len()).1;
        place = middle.end;
    }
    stretches.push(taken_out(units))?;
    Ok(Removed { stop, left: &[] })
}

// How many of the units, which start at `place`, stand before the change at index `at`. None where
// they end before it, or there is no such change.
fn kept_before(middles: &[Middle<'_>], at: usize, place: Point, units: &[u16]) -> Option<usize>
    requires { at ≤ length middles.now }
    ensures { MatchOption result ((end : Point) → removal end place units.now (betweens_seen (drop at middles.now))
        ≡ removal_made (taken_out units.now ∷ []) (betweens_seen (drop at middles.now)))
        (λ kept. (at < length middles.now) × (kept ≤ length units.now)
        × ((d : Middle) → offset_of units.now (traversal (slice_index_or middles.now at d).start place) ≡ Some kept)) }
{
    if at == middles.len() {
        return None;
    }
    offset_of(units, traversal(middles[at].start, place))
}

// Units taken out where nothing is kept before them.
fn taken_out(units: &[u16]) -> Stretch<'_>
    ensures { part_seen result ≡ taken_out units.now }
{
    Stretch {
        kept: Point::default(),
        old_text: units,
        new_text: &[],
    }
}

// What is left of the first patch.
fn finish<'a>(
    stretches: &mut Vec<Stretch<'a>>,
    middles: &[Middle<'a>],
    reached: Reached,
) -> Result<(), NoMemory>
    requires { reached.at ≤ length middles.now }
    ensures { OnOk result (parts_seen stretches.new.items ≡ parts_seen stretches.old.items
        ++ parts_between reached.place (betweens_seen (drop reached.at middles.now))) }
{
    let mut place = reached.place;
    for middle in &middles[reached.at..] {
        stretches.push(middle.behind(place))?;
        place = middle.end;
    }
    Ok(())
}
