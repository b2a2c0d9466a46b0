//! Puts a layer together from stretches of the text below and from units put in, one behind the other.
//!
//! What the stretches leave out of the text below is taken out. Units taken out and put in with nothing
//! kept between them become one change, and a change that takes nothing out and puts nothing in is none.
ghost use Rattle.std.specs.Prelude.{◌≡◌, ℕ, ◌+◌, ◌-◌, ◌≤◌, ◌++◌, [], List, length, OnOk, IfOk};
ghost use Rattle.points.specs.declared.limits.TheConstants.{MAX_UNITS};
ghost use Rattle.patch.specs.Tagged.{Tagged, tagged_from, untagged};
ghost use Rattle.chains.specs.Overlay.{end_of, IsLaid, tags_of};
ghost use Rattle.chains.specs.Weaving.{IsWoven, IsClosed, Follows, Weaves, IsStretch, CanKeep, CanPut};

use crate::overlay::{Cut, Overlay};
use crate::spot::{Spot, ahead};
use line_text::{LineText, TextPart};
use points::{NoMemory, Point};
use std::alloc::Global;

/// A layer on the way: its changes so far, and one that is open.
#[derive(Debug, Drop)]
pub struct Weaver {
    pub(crate) cuts: Vec<Cut>,
    pub(crate) text: LineText,
    // Where the open change begins: in the text below, in the text that is made, and in `text`.
    pub(crate) open_old: Spot,
    pub(crate) open_new: Spot,
    pub(crate) open_text: u32,
    // How far the two texts have come.
    pub(crate) at_old: Spot,
    pub(crate) at_new: Spot,
    // How many units the texts of the changes have, of both sides.
    pub(crate) units: u64,
}

impl Weaver {
    /// Nothing so far, with room for so many changes, units put in and line feeds among them.
    pub(crate) fn new(
        alloc: Global,
        cuts: usize,
        units: usize,
        feeds: usize,
    ) -> Result<Self, NoMemory>
        ensures woven { IfOk result (λ made. (s : List ℕ) → IsWoven s [] made) }
        ensures start { IfOk result (λ made. made.at_old.offset ≡ 0) }
    {
        let start = Spot {
            offset: 0,
            point: Point { row: 0, column: 0 },
        };
        Ok(Weaver {
            cuts: Vec::with_capacity(alloc, cuts)?,
            text: LineText::with_room(alloc, units, feeds)?,
            open_old: start,
            open_new: start,
            open_text: 0,
            at_old: start,
            at_new: start,
            units: 0,
        })
    }

    /// Keeps what stands between two spots of the text below. What is left out before it is taken out.
    pub(crate) fn keep(&mut self, from: Spot, to: Spot) -> Result<(), NoMemory>
        requires { CanKeep self.old from to }
        ensures { OnOk result ((s f k : List ℕ) → (whole left : Tagged) → IsStretch s f k from to
            → Weaves s whole (tagged_from (length f) k ++ left) self.old → Weaves s whole left self.new) }
    {
        if from.offset == to.offset {
            return Ok(());
        }
        self.at_old = from;
        self.close()?;
        self.at_new = ahead(self.at_new, from, to);
        self.at_old = to;
        self.open_old = to;
        self.open_new = self.at_new;
        self.open_text = self.text.len() as u32;
        Ok(())
    }

    /// Puts units in, which stand between these two spots of a text of their own.
    pub(crate) fn put(&mut self, part: TextPart<'_>, from: Spot, to: Spot) -> Result<(), NoMemory>
        requires { CanPut self.old part from to }
        ensures { OnOk result ((s f : List ℕ) → (whole left : Tagged) → from ≡ end_of f → to ≡ end_of (f ++ part.entry)
            → Weaves s whole (untagged part.entry ++ left) self.old → Weaves s whole left self.new) }
    {
        self.text.append(part)?;
        self.at_new = ahead(self.at_new, from, to);
        Ok(())
    }

    /// The layer, where the text below ends at a spot.
    pub(crate) fn finish(mut self, end: Spot) -> Result<Overlay, NoMemory>
        requires { (s : List ℕ) × (whole : Tagged) × (end ≡ end_of s) × Weaves s whole [] self }
        ensures laid { IfOk result (λ overlay. (s : List ℕ) → (whole : Tagged) → end ≡ end_of s → Weaves s whole [] self
            → IsLaid s overlay) }
        ensures tags { IfOk result (λ overlay. (s : List ℕ) → (whole : Tagged) → end ≡ end_of s → Weaves s whole [] self
            → tags_of s overlay ≡ whole) }
    {
        self.at_old = end;
        self.close()?;
        Ok(Overlay {
            cuts: self.cuts,
            text: self.text,
            end: self.at_new,
            units: self.units,
        })
    }

    /// Ends the open change, where it takes something out or puts something in.
    pub(crate) fn close(&mut self) -> Result<(), NoMemory>
        requires { (s : List ℕ) × (g : Tagged) × (IsWoven s g self.old) × (length s ≤ MAX_UNITS) × (length g ≤ MAX_UNITS) }
        ensures ok { OnOk result ((s : List ℕ) → (g : Tagged) → IsWoven s g self.old → IsClosed s g self.new) }
        ensures old { self.new.at_old ≡ self.old.at_old }
        ensures new { self.new.at_new ≡ self.old.at_new }
    {
        let taken = self.at_old.offset - self.open_old.offset;
        let put = self.text.len() as u32 - self.open_text;
        let size = u64::from(taken) + u64::from(put);
        if size == 0 {
            return Ok(());
        }
        self.cuts.push(Cut {
            old: self.open_old,
            old_end: self.at_old,
            new: self.open_new,
            new_end: self.at_new,
            text: self.open_text,
        })?;
        self.units += size;
        Ok(())
    }
}
