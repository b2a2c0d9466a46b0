//! Edits of a text in layers. The layers that an edit doesn't touch are shared.
ghost use Rattle.std.specs.Prelude.{◌≡◌, ◌+◌, ◌<◌, ◌≤◌, ℕ, [], ◌∷◌, List, length, IfOk};
ghost use Rattle.std.specs.Arc.{arc_value};
ghost use Rattle.patch.specs.Tagged.{tagged, units_of, edited};
ghost use Rattle.chains.specs.Layered.{on_base, whole_text, depth_of, after_change, is_small};
ghost use Rattle.chains.specs.Overlay.{overlays_of, tags_of, tags_above, text_of_all, AreLaid};
ghost use Rattle.chains.specs.Changes.{CanReplace, joins_newest, newest_edited};

use crate::chain::Chain;
use crate::held::{Held, Top, end_above, share, top_of};
use crate::overlay::Overlay;
use crate::size::LayerSize;
use crate::spot::Spot;
use arrayvec::ArrayVec;
use line_text::LineText;
use points::NoMemory;
use std::alloc::Global;
use std::sync::Arc;

// Whether an edit still goes into a layer of this size.
fn is_small(size: LayerSize) -> bool
    ensures { result ≡ is_small size }
{
    size.changes <= 63 && size.units <= 65535
}

// Whether an edit goes into the newest of these layers.
fn joins_newest(held: &[Option<Held>]) -> bool
    requires { (base : List ℕ) × AreLaid base (overlays_of held.now) }
    ensures { (base : List ℕ) → AreLaid base (overlays_of held.now) → result ≡ joins_newest base (tags_above base (overlays_of held.now)) }
{
    match top_of(held) {
        None => false,
        Some(top) => is_small(top.overlay.size()),
    }
}

/// A text of these layers: the newest, and those below it, which are shared.
pub(crate) fn stacked(
    alloc: Global,
    base: &Arc<LineText, Global>,
    newest: Overlay,
    below: &[Option<Held>],
) -> Result<Chain, NoMemory>
    requires laid { AreLaid (arc_value base.now) (newest ∷ overlays_of below.now) }
    requires few { length (overlays_of below.now) ≤ 7 }
    ensures { IfOk result (λ made. made ≡ on_base (arc_value base.now) (tags_above (arc_value base.now) (newest ∷ overlays_of below.now))) }
{
    let mut above = ArrayVec::new();
    let overlay = Arc::new(alloc, newest)?;
    above.push(Some(Held { overlay }));
    share(&mut above, below)?;
    Ok(Chain {
        base: Arc::try_clone(base)?,
        above,
    })
}

// The layers where the units between two spots are replaced in the newest.
fn newest_edited(
    alloc: Global,
    base: &Arc<LineText, Global>,
    top: Top<'_>,
    from: Spot,
    to: Spot,
    put: &LineText,
) -> Result<Chain, NoMemory>
    requires laid { AreLaid (arc_value base.now) (top.overlay.now ∷ overlays_of top.below.now) }
    requires few { length (overlays_of top.below.now) ≤ 7 }
    requires change { CanReplace (text_of_all (arc_value base.now) (top.overlay.now ∷ overlays_of top.below.now)) from to put.now }
    ensures { IfOk result (λ made. made ≡ on_base (arc_value base.now) (newest_edited (tags_above (arc_value base.now) (top.entry.overlay.now ∷ overlays_of top.entry.below.now)) from.offset to.offset put.now)) }
{
    let end = end_above(base, top.below);
    let newest = top.overlay.edited(alloc, end, from, to, put)?;
    stacked(alloc, base, newest, top.below)
}

// The layers with one more, where the units between two spots are replaced.
fn layer_added(
    alloc: Global,
    base: &Arc<LineText, Global>,
    held: &[Option<Held>],
    from: Spot,
    to: Spot,
    put: &LineText,
) -> Result<Chain, NoMemory>
    requires laid { AreLaid (arc_value base.now) (overlays_of held.now) }
    requires few { length (overlays_of held.now) ≤ 7 }
    requires change { CanReplace (text_of_all (arc_value base.now) (overlays_of held.now)) from to put.now }
    ensures { IfOk result (λ made. made ≡ on_base (arc_value base.now) (edited (tagged (text_of_all (arc_value base.now) (overlays_of held.now))) from.offset to.offset put.now
        ∷ tags_above (arc_value base.now) (overlays_of held.now))) }
{
    let end = end_above(base, held);
    let unchanged = Overlay::unchanged(alloc, end)?;
    let newest = unchanged.edited(alloc, end, from, to, put)?;
    stacked(alloc, base, newest, held)
}

impl Chain {
    /// The text where the units between two of its spots are replaced, in its newest layer above the base.
    pub fn edit_newest(
        &self,
        alloc: Global,
        from: Spot,
        to: Spot,
        put: &LineText,
    ) -> Result<Self, NoMemory>
        requires some { 0 < length self.now.above }
        requires change { CanReplace (whole_text self.now) from to put.now }
        ensures { IfOk result (λ made. made ≡ on_base self.now.base (newest_edited self.now.above from.offset to.offset put.now)) }
    {
        match top_of(self.above.as_slice()) {
            // There is one.
            None => self.try_clone(),
            Some(top) => newest_edited(alloc, &self.base, top, from, to, put),
        }
    }

    /// The text where the units between two of its spots are replaced, in one more layer: at most eight
    /// stand above the base then.
    pub fn add_layer(
        &self,
        alloc: Global,
        from: Spot,
        to: Spot,
        put: &LineText,
    ) -> Result<Self, NoMemory>
        requires room { length self.now.above ≤ 7 }
        requires change { CanReplace (whole_text self.now) from to put.now }
        ensures { IfOk result (λ made. made ≡ on_base self.now.base (edited (tagged (whole_text self.now)) from.offset to.offset put.now ∷ self.now.above)) }
    {
        layer_added(alloc, &self.base, self.above.as_slice(), from, to, put)
    }

    /// Whether an edit goes into the newest layer above the base: there is one, and it is small.
    pub fn joins_newest(&self) -> bool
        ensures { result ≡ joins_newest self.now.base self.now.above }
    {
        joins_newest(self.above.as_slice())
    }

    /// The text where the units between two of its spots are replaced: in the newest layer above the base
    /// while that is small, else in one more layer, or, where that would be the ninth, in a new base.
    pub fn edited(
        &self,
        alloc: Global,
        from: Spot,
        to: Spot,
        put: &LineText,
    ) -> Result<Self, NoMemory>
        requires few { depth_of self.now ≤ 8 }
        requires change { CanReplace (whole_text self.now) from to put.now }
        ensures value { IfOk result (λ made. made ≡ after_change self.now ((from.offset, to.offset, put.now) ∷ [])) }
        ensures few { IfOk result (λ made. depth_of made ≤ 8) }
    {
        if self.joins_newest() {
            return self.edit_newest(alloc, from, to, put);
        }
        let made = self.add_layer(alloc, from, to, put)?;
        if made.depth() <= 8 {
            Ok(made)
        } else {
            made.flattened(alloc)
        }
    }
}
