//! Edits of a layer: a layer that stands in its place, with some units of its text replaced.
ghost use Rattle.std.specs.Prelude.{◌≡◌, ℕ, ◌+◌, ◌-◌, ◌≤◌, ◌++◌, [], ◌∷◌, List, length, take, drop, slice_range, OnOk, IfOk, IfSome};
ghost use Rattle.points.specs.declared.limits.TheConstants.{MAX_UNITS};
ghost use Rattle.patch.specs.Tagged.{Tagged, tagged, tagged_from, untagged, units_of, edited};
ghost use Rattle.chains.specs.declared.overlay.Cut.{Cut};
ghost use Rattle.patch.proofs.Pieces.{Piece};
ghost use Rattle.chains.specs.Overlay.{end_of, cuts_of, puts_of, IsLaid, tags_of};
ghost use Rattle.chains.specs.Moving.{IsRest, IsTail};
ghost use Rattle.chains.specs.Weaving.{IsWoven, Weaves, IsStretch};
ghost use Rattle.chains.specs.Walking.{IsIn, IsLater, IsEarlier, Lies, IsOverlap, IsEdit, Opens, HasPut, CanWeavePut};

use crate::moving::{Shift, move_cuts};
use crate::overlay::{Cut, Overlay};
use crate::spot::{Spot, ahead};
use crate::stand::first_past;
use crate::weaver::Weaver;
use line_text::LineText;
use points::{NoMemory, Point};
use std::alloc::Global;

/// What of a stretch lies between two spots.
#[derive(Clone, Copy, Debug)]
pub struct Overlap {
    pub(crate) from: Spot,
    pub(crate) to: Spot,
}

// The second spot where it stands behind the first, else the first.
fn later(a: Spot, b: Spot) -> Spot
    ensures { IsLater a b result }
{
    if a.offset < b.offset { b } else { a }
}

// The second spot where it stands before the first, else the first.
fn earlier(a: Spot, b: Spot) -> Spot
    ensures { IsEarlier a b result }
{
    if b.offset < a.offset { b } else { a }
}

// What of the stretch from `start` to `end` lies between `from` and `to`, where that is a unit or more.
fn overlap_of(start: Spot, end: Spot, from: Spot, to: Spot) -> Option<Overlap>
    ensures { (t n k : List ℕ) → Lies t n k start end → IsIn t from → IsIn t to
        → IsOverlap n k (from.offset - length n) (to.offset - length n) result }
{
    let first = later(start, from);
    let last = earlier(end, to);
    if first.offset < last.offset {
        Some(Overlap {
            from: first,
            to: last,
        })
    } else {
        None
    }
}

impl Overlay {
    /// A layer that changes nothing of a text that ends at the spot.
    pub(crate) fn unchanged(alloc: Global, end: Spot) -> Result<Self, NoMemory>
        ensures laid { IfOk result (λ made. (s : List ℕ) → end ≡ end_of s → length s ≤ MAX_UNITS → IsLaid s made) }
        ensures tags { IfOk result (λ made. (s : List ℕ) → tags_of s made ≡ tagged s) }
    {
        Ok(Overlay {
            cuts: Vec::new(alloc),
            text: LineText::with_room(alloc, 0, 0)?,
            end,
            units: 0,
        })
    }

    /// This layer, where the units between two spots of its text are replaced. The text below it ends at
    /// `below`.
    pub(crate) fn edited(
        &self,
        alloc: Global,
        below: Spot,
        from: Spot,
        to: Spot,
        put: &LineText,
    ) -> Result<Self, NoMemory>
        requires { (s : List ℕ) × IsEdit s self.now below from to put.now }
        ensures laid { IfOk result (λ made. (s : List ℕ) → IsEdit s self.now below from to put.now → IsLaid s made) }
        ensures tags { IfOk result (λ made. (s : List ℕ) → IsEdit s self.now below from to put.now
            → tags_of s made ≡ edited (tags_of s self.now) from.offset to.offset put.now) }
    {
        let feeds = self.text.extent().row as usize + put.extent().row as usize;
        let units = self.text.len() + put.len();
        let mut weaver = self.front(alloc, from, units, feeds)?;
        let start = Spot {
            offset: 0,
            point: Point { row: 0, column: 0 },
        };
        let end = Spot {
            offset: put.len() as u32,
            point: put.extent(),
        };
        weaver.put(put.part(0, put.len()), start, end)?;
        self.completed(weaver, below, to)
    }

    // A weaver that has come to a spot of the layer's text, with room for so many units put in and line
    // feeds among them. What the layer has up to there is taken over at once.
    fn front(
        &self,
        alloc: Global,
        from: Spot,
        units: usize,
        feeds: usize,
    ) -> Result<Weaver, NoMemory>
        requires { (s : List ℕ) × (below to : Spot) × (put : List ℕ) × IsEdit s self.now below from to put }
        ensures { IfOk result (λ made. (s : List ℕ) → (below to : Spot) → (put : List ℕ) → IsEdit s self.now below from to put
            → Weaves s (edited (tags_of s self.now) from.offset to.offset put)
            (untagged put ++ (slice_range (tags_of s self.now) to.offset self.now.end.offset ++ [])) made) }
    {
        let next = first_past(self.cuts.as_slice(), from.offset);
        if next == 0 {
            let mut weaver = Weaver::new(alloc, self.cuts.len() + 1, units, feeds)?;
            let start = Spot {
                offset: 0,
                point: Point { row: 0, column: 0 },
            };
            weaver.keep(start, from)?;
            return Ok(weaver);
        }
        let cut = self.cuts[next - 1];
        let mut weaver = self.opened(
            alloc,
            next - 1,
            cut,
            earlier(cut.new_end, from),
            units,
            feeds,
        )?;
        let last = later(cut.new_end, from);
        weaver.keep(cut.old_end, ahead(cut.old_end, cut.new_end, last))?;
        Ok(weaver)
    }

    // A weaver that has the changes before the one at `index`, and that one open, with what it put in up to
    // `last`.
    fn opened(
        &self,
        alloc: Global,
        index: usize,
        cut: Cut,
        last: Spot,
        units: usize,
        feeds: usize,
    ) -> Result<Weaver, NoMemory>
        requires { (s : List ℕ) × Opens s self.now index cut last }
        ensures woven { IfOk result (λ made. (s : List ℕ) → Opens s self.now index cut last → IsWoven s (take last.offset (tags_of s self.now)) made) }
        ensures old { IfOk result (λ made. made.at_old ≡ cut.old_end) }
    {
        let end = cut.text + (last.offset - cut.new.offset);
        let mut cuts = Vec::with_capacity(alloc, self.cuts.len() + 2)?;
        cuts.extend_from_slice(&self.cuts.as_slice()[..index])?;
        let mut text = LineText::with_room(alloc, units, feeds)?;
        text.append(self.text.part(0, end as usize))?;
        // Each change before has as many units kept before it in one text as in the other.
        let both = u64::from(cut.old.offset) + 2 * u64::from(cut.text);
        Ok(Weaver {
            cuts,
            text,
            open_old: cut.old,
            open_new: cut.new,
            open_text: cut.text,
            at_old: cut.old_end,
            at_new: last,
            units: both - u64::from(cut.new.offset),
        })
    }

    // The layer that the weaver makes with what this one has behind a spot of its text. The text below ends
    // at `below`.
    fn completed(&self, mut weaver: Weaver, below: Spot, to: Spot) -> Result<Overlay, NoMemory>
        requires { (s : List ℕ) × (whole : Tagged) × IsTail s self.now below to whole weaver }
        ensures laid { IfOk result (λ made. (s : List ℕ) → (whole : Tagged) → IsTail s self.now below to whole weaver → IsLaid s made) }
        ensures tags { IfOk result (λ made. (s : List ℕ) → (whole : Tagged) → IsTail s self.now below to whole weaver → tags_of s made ≡ whole) }
    {
        let next = first_past(self.cuts.as_slice(), to.offset);
        if next == 0 {
            return self.followed(weaver, below, 0, to, to);
        }
        let cut = self.cuts[next - 1];
        self.weave_put(&mut weaver, cut, to, self.end)?;
        let last = later(cut.new_end, to);
        let old = ahead(cut.old_end, cut.new_end, last);
        self.followed(weaver, below, next, old, last)
    }

    // The layer that the weaver makes with the changes of this one from the one at `next` on. What is kept
    // before them stands behind `old` in the text below, and behind `new` in this layer's text.
    fn followed(
        &self,
        mut weaver: Weaver,
        below: Spot,
        next: usize,
        old: Spot,
        new: Spot,
    ) -> Result<Overlay, NoMemory>
        requires { (s : List ℕ) × (whole : Tagged) × (below ≡ end_of s) × IsRest s self.now next old new whole weaver }
        ensures laid { IfOk result (λ made. (s : List ℕ) → (whole : Tagged) → below ≡ end_of s → IsRest s self.now next old new whole weaver → IsLaid s made) }
        ensures tags { IfOk result (λ made. (s : List ℕ) → (whole : Tagged) → below ≡ end_of s → IsRest s self.now next old new whole weaver → tags_of s made ≡ whole) }
    {
        weaver.at_old = old;
        weaver.close()?;
        let text_from = self.text_before(next);
        let by = Shift {
            from: new,
            to: weaver.at_new,
            text_from,
            text_to: weaver.text.len() as u32,
        };
        move_cuts(&mut weaver.cuts, &self.cuts.as_slice()[next..], by)?;
        weaver
            .text
            .append(self.text.part(text_from as usize, self.text.len()))?;
        let end = ahead(weaver.at_new, new, self.end);
        // What is kept counts on both sides alike.
        let both = u64::from(below.offset) + 2 * weaver.text.len() as u64;
        Ok(Overlay {
            cuts: weaver.cuts,
            text: weaver.text,
            end,
            units: both - u64::from(end.offset),
        })
    }

    // How many units the changes before the one at `next` put in.
    fn text_before(&self, next: usize) -> u32
        requires { length self.now.text ≤ MAX_UNITS }
        ensures { (olds news puts : List ℕ) → (pieces : List Piece) → drop next self.now.cuts.items ≡ cuts_of olds news puts pieces
            → self.now.text ≡ puts ++ puts_of pieces → result ≡ length puts }
    {
        let cuts = self.cuts.as_slice();
        if next < cuts.len() {
            cuts[next].text
        } else {
            self.text.len() as u32
        }
    }

    // Gives the weaver what the change put in between two spots.
    fn weave_put(&self, weaver: &mut Weaver, cut: Cut, from: Spot, to: Spot) -> Result<(), NoMemory>
        requires { CanWeavePut self.now cut from to weaver.old }
        ensures { OnOk result ((s t n k p : List ℕ) → (whole left : Tagged) → HasPut self.now cut p k → Lies t n k cut.new cut.new_end
            → IsIn t from → IsIn t to
            → Weaves s whole (untagged (slice_range k (from.offset - length n) (to.offset - length n)) ++ left) weaver.old
            → Weaves s whole left weaver.new) }
    {
        let Some(part) = overlap_of(cut.new, cut.new_end, from, to) else {
            return Ok(());
        };
        let first = (cut.text + (part.from.offset - cut.new.offset)) as usize;
        let last = (cut.text + (part.to.offset - cut.new.offset)) as usize;
        weaver.put(self.text.part(first, last), part.from, part.to)
    }
}
