//! Where units of the text that a layer gives stand: in what it put in, or in the text below.
ghost use Rattle.std.specs.Prelude.{◌≡◌, ℕ, ◌+◌, ◌-◌, ◌<◌, ◌≤◌, List, [], length, take, drop, slice_get, Some};
ghost use Rattle.patch.proofs.Pieces.{new_of};
ghost use Rattle.chains.specs.declared.overlay.Cut.{Cut as ACut};
ghost use Rattle.chains.specs.Overlay.{IsLaid, first_kept};
ghost use Rattle.chains.specs.Stand.{StandsIn};

use crate::overlay::{Cut, Overlay};

/// Some units that a layer gives: it put them in, and they stand in its text, or they stand in the text
/// below.
#[derive(Clone, Copy)]
pub enum Stand {
    Put { from: u32, len: u32 },
    Kept { from: u32, len: u32 },
}

/// The first change that starts behind `at`, or how many there are.
pub(crate) fn first_past(cuts: &[Cut], at: u32) -> usize
    ensures within { result ≤ length cuts.now }
    ensures before { (c : ACut) → 0 < result → slice_get cuts.now (result - 1) ≡ Some c → c.new.offset ≤ at }
    ensures behind { (c : ACut) → slice_get cuts.now result ≡ Some c → at < c.new.offset }
{
    let mut low = 0;
    let mut high = cuts.len();
    'halve: while low < high {
        let middle = low + (high - low) / 2;
        if cuts[middle].new.offset <= at {
            low = middle + 1;
        } else {
            high = middle;
        }
    }
    low
}

/// The longest stretch of units from `at` on, up to `to` at most, that stands in one place.
pub(crate) fn standing(overlay: &Overlay, at: u32, to: u32) -> Stand
    requires laid { (s : List ℕ) × IsLaid s overlay.now }
    requires order { at < to }
    requires within { to ≤ overlay.now.end.offset }
    ensures { (s : List ℕ) → IsLaid s overlay.now → StandsIn s overlay.now at to result }
{
    let cuts = overlay.cuts.as_slice();
    let next = first_past(cuts, at);
    let limit = kept_end(overlay, next, at).min(to);
    if next == 0 {
        return Stand::Kept {
            from: at,
            len: limit - at,
        };
    }
    let cut = cuts[next - 1];
    let put_end = cut.new_end.offset;
    if at < put_end {
        let end = put_end.min(to);
        Stand::Put {
            from: cut.text + (at - cut.new.offset),
            len: end - at,
        }
    } else {
        Stand::Kept {
            from: at - cut.new_end.offset + cut.old_end.offset,
            len: limit - at,
        }
    }
}

// Where what is kept before the change `next` ends, or behind the last. It is behind `at`.
fn kept_end(overlay: &Overlay, next: usize, at: u32) -> u32
    requires some { at < overlay.now.end.offset }
    requires behind { (c : ACut) → slice_get overlay.now.cuts.items next ≡ Some c → at < c.new.offset }
    ensures value { (s : List ℕ) → (h : IsLaid s overlay.now) → result ≡ length (new_of (take next h.pieces) []) + length (first_kept (drop next h.pieces) h.tail) }
    ensures behind { at < result }
{
    let cuts = overlay.cuts.as_slice();
    if next < cuts.len() {
        cuts[next].new.offset
    } else {
        overlay.end.offset
    }
}
