//! A squash: all layers above the base as one, or a new base where that would be too large.
//!
//! The walk goes over the stretches of the newest text. A weaver keeps those that stand in the base, and
//! puts in the others, whichever layer has them. It gives up before it has put in more units than a squash
//! may have, so a large text that an edit put in isn't copied for nothing.
ghost use Rattle.std.specs.Prelude.{◌≡◌, ◌++◌, [], ◌∷◌, ℕ, IfOk, OnOk, List, true, false};
ghost use Rattle.patch.specs.Tagged.{Tagged};
ghost use Rattle.chains.specs.Layered.{on_base, squashed, tags_since, is_within, size_of};
ghost use Rattle.chains.specs.Overlay.{overlays_of, tags_above, tags_of, end_of, AreLaid, IsLaid};
ghost use Rattle.chains.specs.Stand.{tags_at};
ghost use Rattle.chains.specs.Squash.{IsSquash, CanWeaveStretch};
ghost use Rattle.chains.specs.Weaving.{Weaves};

use crate::chain::Chain;
use crate::change::stacked;
use crate::held::{Held, end_above};
use crate::lookup::spot_above;
use crate::overlay::Overlay;
use crate::spot::{Spot, spot_in};
use crate::stretch::{Stretch, stretch_at};
use crate::weaver::Weaver;
use line_text::LineText;
use points::{NoMemory, Point};
use std::alloc::Global;

// How many changes and units a squash may have; past either it becomes a base.
const MOST_CHANGES: u32 = 512;

const MOST_UNITS: u64 = 65_536;

impl Chain {
    /// All layers above the base as one, or a new base where that would be more than 512 changes or 65,536
    /// units. The text stays.
    pub fn squashed(&self, alloc: Global) -> Result<Self, NoMemory>
        ensures { IfOk result (λ made. made ≡ squashed self.now) }
    {
        match self.as_one_layer(alloc)? {
            Some(layer) => self.with_one_layer(alloc, layer),
            None => self.flattened(alloc),
        }
    }

    // All layers above the base as one, where that isn't too large.
    fn as_one_layer(&self, alloc: Global) -> Result<Option<Overlay>, NoMemory>
        ensures { IfOk result (λ made. IsSquash self.now.base (tags_since self.now.base self.now.above) made) }
    {
        joined_layer(alloc, &self.base, self.above.as_slice())
    }

    // The base with this layer above it.
    fn with_one_layer(&self, alloc: Global, layer: Overlay) -> Result<Self, NoMemory>
        requires { IsLaid self.now.base layer }
        ensures { IfOk result (λ made. made ≡ on_base self.now.base (tags_of self.now.base layer ∷ [])) }
    {
        stacked(alloc, &self.base, layer, &[])
    }
}

// These layers as one, where that isn't too large.
fn joined_layer(
    alloc: Global,
    base: &LineText,
    held: &[Option<Held>],
) -> Result<Option<Overlay>, NoMemory>
    requires { AreLaid base.now (overlays_of held.now) }
    ensures { IfOk result (λ made. IsSquash base.now (tags_since base.now (tags_above base.now (overlays_of held.now))) made) }
{
    let below = Spot {
        offset: base.len() as u32,
        point: base.extent(),
    };
    let end = end_above(base, held);
    let mut weaver = Weaver::new(alloc, 0, 0, 0)?;
    let mut at = Spot {
        offset: 0,
        point: Point { row: 0, column: 0 },
    };
    'stretches: while at.offset < end.offset {
        let stretch = stretch_at(base, held, at.offset, end.offset);
        if puts_too_much(&weaver, &stretch) {
            return Ok(None);
        }
        let next = spot_above(base, held, at.offset + stretch.part.len() as u32);
        weave_stretch(&mut weaver, base, stretch, at, next)?;
        at = next;
    }
    finish_small(weaver, below)
}

// Whether more units than a squash may have are put in with this stretch.
fn puts_too_much(weaver: &Weaver, stretch: &Stretch<'_>) -> bool
    ensures { (base : List ℕ) → (whole left : Tagged) → Weaves base whole (tags_at stretch.now.part stretch.now.base ++ left) weaver.now
        → result ≡ true → is_within 512 65536 (size_of base whole) ≡ false }
{
    match stretch.base {
        None => (weaver.text.len() + stretch.part.len()) as u64 > MOST_UNITS,
        Some(_) => false,
    }
}

// Gives the weaver a stretch, which stands between two spots of the text: what stands in the base is kept.
fn weave_stretch(
    weaver: &mut Weaver,
    base: &LineText,
    stretch: Stretch<'_>,
    from: Spot,
    to: Spot,
) -> Result<(), NoMemory>
    requires { CanWeaveStretch base.now stretch.part stretch.base from to weaver.old }
    ensures { OnOk result ((whole left : Tagged) → Weaves base.now whole (tags_at stretch.entry.part stretch.entry.base ++ left) weaver.old
        → Weaves base.now whole left weaver.new) }
{
    let Stretch { part, base: place } = stretch;
    match place {
        None => weaver.put(part, from, to),
        Some(start) => {
            let end = start + part.len() as u32;
            weaver.keep(spot_in(base, start), spot_in(base, end))
        }
    }
}

// The layer that is made, where it isn't too large. The text below it ends at `below`.
fn finish_small(weaver: Weaver, below: Spot) -> Result<Option<Overlay>, NoMemory>
    requires { (base : List ℕ) × (whole : Tagged) × (below ≡ end_of base) × Weaves base whole [] weaver }
    ensures { IfOk result (λ made. (base : List ℕ) → (whole : Tagged) → below ≡ end_of base → Weaves base whole [] weaver
        → IsSquash base whole made) }
{
    let overlay = weaver.finish(below)?;
    let size = overlay.size();
    if size.changes <= MOST_CHANGES && size.units <= MOST_UNITS {
        Ok(Some(overlay))
    } else {
        Ok(None)
    }
}
