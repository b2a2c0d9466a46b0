//! Places of a text in layers, found by a walk down from the newest layer.
ghost use Rattle.std.specs.Prelude.{◌≡◌, ◌+◌, ◌-◌, ◌<◌, ◌≤◌, ℕ, List, length, slice_get, Some, true, false};
ghost use Rattle.points.specs.MarkText.{IsPointOf};
ghost use Rattle.points.specs.Place.{point_at};
ghost use Rattle.points.specs.Point.{point_lt};
ghost use Rattle.patch.specs.Tagged.{units_of};
ghost use Rattle.chains.specs.declared.overlay.Cut.{Cut as ACut};
ghost use Rattle.chains.specs.Overlay.{overlays_of, tags_of, text_of_all, AreLaid, IsLaid};
ghost use Rattle.chains.specs.LeadsDown.{LeadsDown};
ghost use Rattle.chains.specs.Spots.{spot_in};

use crate::held::{Held, top_of};
use crate::overlay::{Cut, Overlay};
use crate::spot::{Spot, ahead, spot_in, spot_to};
use crate::stand::first_past;
use line_text::LineText;
use points::{Point, traversal, traverse};

/// From where a place is reached: from the start `new` of what a layer put in, which stands in its text
/// from `text` on, or from the end `new` of a change, which is the end `old` of what it took out of the
/// text below.
#[derive(Clone, Copy)]
pub enum WayDown {
    Put { new: Spot, text: u32 },
    Below { new: Spot, old: Spot },
}

/// From where the place at the offset `at` of the text that the overlay gives is reached.
pub(crate) fn way_down(overlay: &Overlay, at: u32) -> WayDown
    requires laid { (s : List ℕ) × IsLaid s overlay.now }
    requires within { at ≤ overlay.now.end.offset }
    ensures { (s : List ℕ) → IsLaid s overlay.now → LeadsDown s overlay.now at result }
{
    let cuts = overlay.cuts.as_slice();
    let next = first_past(cuts, at);
    if next == 0 {
        let start = Spot {
            offset: 0,
            point: Point { row: 0, column: 0 },
        };
        return WayDown::Below {
            new: start,
            old: start,
        };
    }
    let cut = cuts[next - 1];
    let put_end = cut.new_end.offset;
    if at < put_end {
        WayDown::Put {
            new: cut.new,
            text: cut.text,
        }
    } else {
        WayDown::Below {
            new: cut.new_end,
            old: cut.old_end,
        }
    }
}

/// The place at an offset of the text that these layers give.
pub(crate) fn spot_above(base: &LineText, held: &[Option<Held>], at: u32) -> Spot
    requires laid { AreLaid base.now (overlays_of held.now) }
    requires within { at ≤ length (text_of_all base.now (overlays_of held.now)) }
    ensures { result ≡ spot_in (text_of_all base.now (overlays_of held.now)) at }
{
    match top_of(held) {
        None => spot_in(base, at),
        Some(top) => match way_down(top.overlay, at) {
            WayDown::Put { new, text } => {
                let start = spot_in(&top.overlay.text, text);
                let place = spot_in(&top.overlay.text, text + (at - new.offset));
                ahead(new, start, place)
            }
            WayDown::Below { new, old } => {
                let place = spot_above(base, top.below, old.offset + (at - new.offset));
                ahead(new, old, place)
            }
        },
    }
}

/// The place at a point that the text of these layers has.
pub(crate) fn spot_of(base: &LineText, held: &[Option<Held>], point: Point) -> Spot
    requires laid { AreLaid base.now (overlays_of held.now) }
    requires exists { IsPointOf (text_of_all base.now (overlays_of held.now)) point }
    ensures { (i : ℕ) → i ≤ length (text_of_all base.now (overlays_of held.now)) → point_at (text_of_all base.now (overlays_of held.now)) i ≡ point
        → result ≡ spot_in (text_of_all base.now (overlays_of held.now)) i }
{
    match top_of(held) {
        None => spot_to(base, point),
        Some(top) => match way_to(top.overlay, point) {
            WayDown::Put { new, text } => {
                let start = spot_in(&top.overlay.text, text);
                let carried = traverse(start.point, traversal(point, new.point));
                let place = spot_to(&top.overlay.text, carried);
                ahead(new, start, place)
            }
            WayDown::Below { new, old } => {
                let carried = traverse(old.point, traversal(point, new.point));
                let place = spot_of(base, top.below, carried);
                ahead(new, old, place)
            }
        },
    }
}

// From where the place at a point of the text that the overlay gives is reached.
fn way_to(overlay: &Overlay, point: Point) -> WayDown
    requires { (s : List ℕ) × IsLaid s overlay.now }
    ensures { (s : List ℕ) → IsLaid s overlay.now → (i : ℕ) → i ≤ length (units_of (tags_of s overlay.now)) → point_at (units_of (tags_of s overlay.now)) i ≡ point
        → LeadsDown s overlay.now i result }
{
    let cuts = overlay.cuts.as_slice();
    let next = first_behind(cuts, point);
    if next == 0 {
        let start = Spot {
            offset: 0,
            point: Point { row: 0, column: 0 },
        };
        return WayDown::Below {
            new: start,
            old: start,
        };
    }
    let cut = cuts[next - 1];
    if is_before(point, cut.new_end.point) {
        WayDown::Put {
            new: cut.new,
            text: cut.text,
        }
    } else {
        WayDown::Below {
            new: cut.new_end,
            old: cut.old_end,
        }
    }
}

// The first change that starts behind the point, or how many there are.
fn first_behind(cuts: &[Cut], point: Point) -> usize
    ensures within { result ≤ length cuts.now }
    ensures before { (c : ACut) → 0 < result → slice_get cuts.now (result - 1) ≡ Some c → point_lt point c.new.point ≡ false }
    ensures behind { (c : ACut) → slice_get cuts.now result ≡ Some c → point_lt point c.new.point ≡ true }
{
    let mut low = 0;
    let mut high = cuts.len();
    'halve: while low < high {
        let middle = low + (high - low) / 2;
        if is_before(point, cuts[middle].new.point) {
            high = middle;
        } else {
            low = middle + 1;
        }
    }
    low
}

// Whether the point `a` stands before the point `b`.
fn is_before(a: Point, b: Point) -> bool
    ensures { result ≡ point_lt a b }
{
    a.row < b.row || (a.row == b.row && a.column < b.column)
}
