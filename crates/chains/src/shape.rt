//! How large the layers of a text are.
ghost use Rattle.std.specs.Prelude.{◌≡◌, ◌<◌, ◌≤◌, ℕ, ◌++◌, List, length, slice_get, Some, IfOk, OnOk};
ghost use Rattle.chains.specs.Layered.{depth_of, sizes_from};
ghost use Rattle.chains.specs.Overlay.{overlays_of, tags_above, AreLaid};

use crate::chain::Chain;
use crate::held::{Held, layers_in, top_of};
use crate::size::LayerSize;
use points::NoMemory;
use std::alloc::Global;

const BASE: LayerSize = LayerSize {
    changes: 0,
    units: 0,
};

// Puts the sizes of the base and of these layers at the end of the list, the newest last.
fn put_sizes(sizes: &mut Vec<LayerSize>, held: &[Option<Held>]) -> Result<(), NoMemory>
    requires { (base : List ℕ) × AreLaid base (overlays_of held.now) }
    ensures { OnOk result ((base : List ℕ) → AreLaid base (overlays_of held.now) → sizes.new.items ≡ sizes.old.items ++ sizes_from base (tags_above base (overlays_of held.now))) }
{
    match top_of(held) {
        None => sizes.push(BASE)?,
        Some(top) => {
            put_sizes(sizes, top.below)?;
            sizes.push(top.overlay.size())?;
        }
    }
    Ok(())
}

// The size of the base, 0, or of one of these layers, from the oldest on.
fn size_in(held: &[Option<Held>], layer: u32) -> LayerSize
    requires laid { (base : List ℕ) × AreLaid base (overlays_of held.now) }
    requires few { length held.now ≤ 8 }
    requires within { layer ≤ length (overlays_of held.now) }
    ensures { (base : List ℕ) → AreLaid base (overlays_of held.now) → slice_get (sizes_from base (tags_above base (overlays_of held.now))) layer ≡ Some result }
{
    match top_of(held) {
        None => BASE,
        Some(top) => {
            if layer > layers_in(top.below) {
                top.overlay.size()
            } else {
                size_in(top.below, layer)
            }
        }
    }
}

impl Chain {
    /// The size of a layer. The base is layer 0, and has no change.
    pub fn size(&self, layer: u32) -> LayerSize
        requires { layer < depth_of self.now }
        ensures { slice_get (sizes_from self.now.base self.now.above) layer ≡ Some result }
    {
        size_in(self.above.as_slice(), layer)
    }

    /// The sizes of all layers, from the base, which has no change, to the newest.
    pub fn sizes(&self, alloc: Global) -> Result<Vec<LayerSize>, NoMemory>
        ensures { IfOk result (λ sizes. sizes.items ≡ sizes_from self.now.base self.now.above) }
    {
        let mut sizes = Vec::with_capacity(alloc, 9)?;
        put_sizes(&mut sizes, self.above.as_slice())?;
        Ok(sizes)
    }
}
