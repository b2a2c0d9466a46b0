//! Layers above a base, each shared by its holders: the newest of them, and what it gives.
ghost use Rattle.std.specs.Prelude.{◌≡◌, ◌+◌, ◌<◌, ◌≤◌, [], ◌∷◌, ◌++◌, length, MatchOption, IfOk, OnOk};
ghost use Rattle.arrayvec.specs.ArrayVec.{array_vec_len};
ghost use Rattle.points.specs.declared.limits.TheConstants.{MAX_UNITS};
ghost use Rattle.chains.specs.Overlay.{overlays_of, text_of_all, end_of, AreLaid};

use crate::overlay::Overlay;
use crate::spot::Spot;
use arrayvec::ArrayVec;
use line_text::LineText;
use points::NoMemory;
use std::alloc::Global;
use std::sync::Arc;

/// A layer above the base, shared with other chains.
#[derive(Drop)]
pub struct Held {
    pub(crate) overlay: Arc<Overlay, Global>,
}

/// The newest layer of some, and those below it.
#[derive(Clone, Copy)]
pub(crate) struct Top<'a> {
    pub(crate) overlay: &'a Overlay,
    pub(crate) below: &'a [Option<Held>],
}

/// The newest of these layers, where there is one.
pub(crate) fn top_of(held: &[Option<Held>]) -> Option<Top<'_>>
    ensures top { MatchOption result (overlays_of held.now ≡ []) (λ top. overlays_of held.now ≡ top.overlay.now ∷ overlays_of top.below.now) }
    ensures fewer { MatchOption result (0 ≤ length held.now) (λ top. length top.below.now < length held.now) }
{
    let (first, below) = held.split_first()?;
    match first {
        None => top_of(below),
        Some(newest) => {
            let overlay: &Overlay = &newest.overlay;
            Some(Top { overlay, below })
        }
    }
}

/// How many layers these are.
pub(crate) fn layers_in(held: &[Option<Held>]) -> u32
    requires { length held.now ≤ 8 }
    ensures value { result ≡ length (overlays_of held.now) }
    ensures few { result ≤ length held.now }
{
    match top_of(held) {
        None => 0,
        Some(top) => 1 + layers_in(top.below),
    }
}

#[tactic(auto, using(crate::proofs::LaidLemmas::share_step))]
/// Puts the layers behind those that `shared` has, shared with their holders.
pub(crate) fn share(
    shared: &mut ArrayVec<Option<Held>, 8>,
    held: &[Option<Held>],
) -> Result<(), NoMemory>
    requires { array_vec_len shared.old + length (overlays_of held.now) ≤ 8 }
    ensures { OnOk result (overlays_of shared.new.items ≡ overlays_of shared.old.items ++ overlays_of held.now) }
{
    match held.split_first() {
        None => Ok(()),
        Some((first, rest)) => {
            share_slot(shared, first)?;
            share(shared, rest)
        }
    }
}

// Puts the layer of a slot, where it has one, behind those that `shared` has.
fn share_slot(shared: &mut ArrayVec<Option<Held>, 8>, slot: &Option<Held>) -> Result<(), NoMemory>
    requires { array_vec_len shared.old + length (overlays_of (slot.now ∷ [])) ≤ 8 }
    ensures layers { OnOk result (overlays_of shared.new.items ≡ overlays_of shared.old.items ++ overlays_of (slot.now ∷ [])) }
    ensures room { OnOk result (array_vec_len shared.new ≡ array_vec_len shared.old + length (overlays_of (slot.now ∷ []))) }
{
    if let Some(held) = slot {
        let overlay = Arc::try_clone(&held.overlay)?;
        shared.push(Some(Held { overlay }));
    }
    Ok(())
}

#[tactic(auto, using(crate::proofs::LaidLemmas::end_of_newest, crate::proofs::LaidLemmas::end_of_base))]
/// The end of the text that these layers give.
pub(crate) fn end_above(base: &LineText, held: &[Option<Held>]) -> Spot
    requires { AreLaid base.now (overlays_of held.now) }
    ensures value { result ≡ end_of (text_of_all base.now (overlays_of held.now)) }
    ensures short { result.offset ≤ MAX_UNITS }
{
    match top_of(held) {
        None => Spot {
            offset: base.len() as u32,
            point: base.extent(),
        },
        Some(top) => top.overlay.end,
    }
}
