//! Which places are kept, marked in one pass.
ghost use Rattle.std.specs.Prelude.{◌≡◌, ◌+◌, ◌-◌, ◌<◌, ◌≤◌, ℕ, Bool, false, true, ◌==◌, ◌||◌, length, slice_index_or, All};
ghost use Rattle.places.specs.Placed.{top_id};
ghost use Rattle.places.specs.Marking.{marked, marked_on};

use crate::placed::{PLACES, Placed};

// The marks after a pass over the entries, newest first.
pub(crate) fn kept_places<X>(entries: &[Placed<X>], top: u32) -> [bool; PLACES]
    requires { All (λ e. e.place < 272) entries.now }
    ensures { (p : ℕ) → p < 272 → slice_index_or result p false ≡ marked top entries.now p }
{
    let mut kept = [false; PLACES];
    mark(&mut kept, top);
    let mut at = entries.len();
    while at > 0 {
        at -= 1;
        pass(&mut kept, &entries[at]);
    }
    kept
}

// Marks one entry's place and its parent where it has a hand or is marked already.
fn pass<X>(kept: &mut [bool], entry: &Placed<X>)
    ensures { (p : ℕ) → p < length kept.old →
        slice_index_or kept.new p false ≡ marked_on (λ q. slice_index_or kept.old q false) entry.now p }
{
    if entry.mask == 0 && !is_marked(kept, entry.place) {
        return;
    }
    mark(kept, entry.place);
    if let Some(parent) = entry.parent {
        mark(kept, parent);
    }
}

// Whether a place is marked.
pub(crate) fn is_marked(kept: &[bool], place: u32) -> bool
    ensures { result ≡ slice_index_or kept.now place false }
{
    kept.get(place as usize).copied().unwrap_or(false)
}

// Marks a place.
pub(crate) fn mark(kept: &mut [bool], place: u32)
    ensures { (p : ℕ) → p < length kept.old →
        slice_index_or kept.new p false ≡ ((place == p) || slice_index_or kept.old p false) }
{
    let place = place as usize;
    if place < kept.len() {
        kept[place] = true;
    }
}
