//! A base with the layers above it, shared.
ghost use Rattle.std.specs.Prelude.{◌≡◌, ℕ, ◌+◌, ◌≤◌, ◌<◌, [], ◌++◌, length, slice_range, string_bytes, IfOk, OnOk, OnErr};
ghost use Rattle.points.specs.Text.{text_of};
ghost use Rattle.points.specs.declared.limits.TheConstants.{MAX_UNITS};

use crate::held::{Held, end_above, layers_in, share};
use crate::lookup::{spot_above, spot_of};
use crate::pieces::Pieces;
use crate::spot::Spot;
use crate::stretch::{Stretch, stretch_at};
use arrayvec::ArrayVec;
use line_text::LineText;
use points::{NoMemory, Point, Units};
use std::alloc::Global;
use std::marker::Model;
use std::sync::Arc;

/// A text in layers. A clone shares them all.
#[derive(Drop)]
pub struct Chain {
    pub(crate) base: Arc<LineText, Global>,
    // The layers above the base, the newest first.
    pub(crate) above: ArrayVec<Option<Held>, 8>,
}

impl Model for Chain {
    ghost use Rattle.std.specs.Arc.{arc_value};
    ghost use Rattle.chains.specs.Layered.{Layered};
    ghost use Rattle.chains.specs.Overlay.{overlays_of, tags_above, AreLaid};

    ghost Value = { Layered };

    ghost view = { λ c. record { base = arc_value c.base; above = tags_above (arc_value c.base) (overlays_of c.above.items) } };

    ghost invariant = { λ c. AreLaid (arc_value c.base) (overlays_of c.above.items) };
}

impl Chain {
    ghost use Rattle.chains.specs.Layered.{on_base, whole_text, depth_of, tags_since};
    ghost use Rattle.chains.specs.Overlay.{end_of};
    ghost use Rattle.chains.specs.Spots.{spot_in};
    ghost use Rattle.chains.specs.Stand.{tags_at};
    ghost use Rattle.points.specs.MarkText.{IsPointOf};
    ghost use Rattle.points.specs.Place.{point_at};

    /// A text with no layer above it.
    pub fn of(alloc: Global, text: LineText) -> Result<Self, NoMemory>
        ensures { IfOk result (λ chain. chain ≡ on_base text []) }
    {
        Ok(Chain {
            base: Arc::new(alloc, text)?,
            above: ArrayVec::new(),
        })
    }

    /// An equal chain, which shares every layer.
    pub fn try_clone(&self) -> Result<Self, NoMemory>
        ensures { IfOk result (λ chain. chain ≡ self.now) }
    {
        let mut above = ArrayVec::new();
        share(&mut above, self.above.as_slice())?;
        Ok(Chain {
            base: Arc::try_clone(&self.base)?,
            above,
        })
    }

    /// How many layers there are, the base among them.
    pub fn depth(&self) -> u32
        ensures { result ≡ depth_of self.now }
    {
        1 + layers_in(self.above.as_slice())
    }

    /// The end of the text.
    pub fn end(&self) -> Spot
        ensures value { result ≡ end_of (whole_text self.now) }
        ensures short { result.offset ≤ MAX_UNITS }
    {
        end_above(&self.base, self.above.as_slice())
    }

    /// How many units there are, at most [`points::MAX_UNITS`].
    pub fn len(&self) -> usize
        ensures value { result ≡ length (whole_text self.now) }
        ensures short { result ≤ MAX_UNITS }
    {
        self.end().offset as usize
    }

    /// The longest stretch of units from `at` on, up to `to` at most, that stands in one layer.
    pub(crate) fn stretch(&self, at: u32, to: u32) -> Stretch<'_>
        requires order { at < to }
        requires within { to ≤ length (whole_text self.now) }
        ensures some { 0 < length result.part }
        ensures within { at + length result.part ≤ to }
        ensures units { slice_range (whole_text self.entry.now) at (at + length result.part) ≡ result.part }
        ensures tags { slice_range (tags_since self.entry.now.base self.entry.now.above) at (at + length result.part) ≡ tags_at result.part result.base }
    {
        stretch_at(&self.base, self.above.as_slice(), at, to)
    }

    /// The units from one offset up to another, one stretch behind the other, lent.
    pub fn pieces(&self, from: usize, to: usize) -> Pieces<'_>
        requires order { from ≤ to }
        requires within { to ≤ length (whole_text self.now) }
        ensures { result ≡ slice_range (whole_text self.entry.now) from to }
    {
        prove!(to <= self.len());
        Pieces {
            chain: self,
            at: from as u32,
            to: to as u32,
        }
    }

    /// The place at an offset.
    pub fn spot_at(&self, offset: usize) -> Spot
        requires { offset ≤ length (whole_text self.now) }
        ensures { result ≡ spot_in (whole_text self.now) offset }
    {
        prove!(offset <= self.len());
        spot_above(&self.base, self.above.as_slice(), offset as u32)
    }

    /// The point at an offset.
    pub fn point_at(&self, offset: usize) -> Point
        requires { offset ≤ length (whole_text self.now) }
        ensures { result ≡ point_at (whole_text self.now) offset }
    {
        self.spot_at(offset).point
    }

    /// The place at a point that the text has.
    pub fn spot_of(&self, point: Point) -> Spot
        requires { IsPointOf (whole_text self.now) point }
        ensures { (i : ℕ) → i ≤ length (whole_text self.now) → point_at (whole_text self.now) i ≡ point → result ≡ spot_in (whole_text self.now) i }
    {
        spot_of(&self.base, self.above.as_slice(), point)
    }

    /// The units from one offset up to another, put together.
    pub fn gathered(&self, alloc: Global, from: usize, to: usize) -> Result<Vec<u16>, NoMemory>
        requires order { from ≤ to }
        requires within { to ≤ length (whole_text self.now) }
        ensures { IfOk result (λ units. units.items ≡ slice_range (whole_text self.now) from to) }
    {
        let mut units = Vec::with_capacity(alloc, to - from)?;
        for piece in self.pieces(from, to) {
            units.extend_from_slice(piece)?;
        }
        Ok(units)
    }

    /// Puts the units from one offset up to another at the end of `into`. A refusal leaves it as it was.
    pub fn units(
        &self,
        alloc: Global,
        from: usize,
        to: usize,
        into: &mut Units,
    ) -> Result<(), NoMemory>
        requires order { from ≤ to }
        requires within { to ≤ length (whole_text self.now) }
        ensures ok { OnOk result (into.new ≡ into.old ++ slice_range (whole_text self.now) from to) }
        ensures err { OnErr result (into.new ≡ into.old) }
    {
        let units = self.gathered(alloc, from, to)?;
        into.append(units.as_slice())
    }

    /// The text, with U+FFFD in place of each surrogate that lacks its partner.
    pub fn to_text(&self, alloc: Global) -> Result<String, NoMemory>
        ensures { IfOk result (λ text. string_bytes text ≡ text_of (whole_text self.now)) }
    {
        let units = self.gathered(alloc, 0, self.len())?;
        let text = String::from_utf16_lossy(alloc, units.as_slice())?;
        Ok(text)
    }
}
