//! Facts about the definitions, for whoever reasons about points: each function states one and does nothing.
ghost use Rattle.std.specs.Prelude.{◌≡◌, ℕ, ◌↔◌, ◌<◌, ◌≤◌, ◌++◌, [], ◌∷◌, IsTrue, Some, length, slice_index};
ghost use Rattle.points.specs.Point.{origin, point_le, traverse, traversal};
ghost use Rattle.points.specs.Text.{IsWellFormed, is_well_formed, mended, mended_unit, text_of, utf16_of};
ghost use Rattle.points.specs.Place.{extent, point_at, offset_of, clip, clipped_offset};
ghost use Rattle.points.specs.Marks.{MovesByTable};
ghost use Rattle.points.specs.MarkRows.{MarksWorkedOut};
ghost use Rattle.points.specs.Literal.{hits};

use crate::mark::{Mark, Splice};
use crate::point::Point;

/// Extents in a row may be put together in any way.
pub fn associative(a: Point, b: Point, c: Point)
    ensures { traverse (traverse a b) c ≡ traverse a (traverse b c) }
{}

/// The origin is the extent that leads nowhere.
pub fn unit(a: Point)
    ensures left { traverse origin a ≡ a }
    ensures right { traverse a origin ≡ a }
{}

/// The extent of two texts in a row is the traverse of their extents.
pub fn joined(a: &[u16], b: &[u16])
    ensures { extent (a.now ++ b.now) ≡ traverse (extent a.now) (extent b.now) }
{}

/// `traverse` and `traversal` undo each other.
pub fn inverse(a: Point, b: Point)
    ensures forward { traversal (traverse a b) a ≡ b }
    ensures back { IsTrue (point_le b a) → traverse b (traversal a b) ≡ a }
{}

/// An offset is found by the point at it, and only by that.
pub fn found(units: &[u16], point: Point, offset: usize)
    ensures { (offset_of units.now point ≡ Some offset)
        ↔ ((offset ≤ length units.now) × (point_at units.now offset ≡ point)) }
{}

/// A clipped point is the point of an offset of the text.
pub fn clipped(units: &[u16], point: Point)
    ensures within { clipped_offset units.now point ≤ length units.now }
    ensures point { point_at units.now (clipped_offset units.now point) ≡ clip units.now point }
{}

/// Clipping keeps the order of points.
pub fn clipped_in_order(units: &[u16], a: Point, b: Point)
    ensures points { IsTrue (point_le a b) → IsTrue (point_le (clip units.now a) (clip units.now b)) }
    ensures offsets { IsTrue (point_le a b) → clipped_offset units.now a ≤ clipped_offset units.now b }
{}

/// The test tells which texts are well-formed.
pub fn well_formed(units: &[u16])
    ensures { IsTrue (is_well_formed units.now) ↔ IsWellFormed units.now }
{}

/// Mending puts U+FFFD in place of each surrogate that lacks its partner, and keeps every other unit.
/// So it keeps offsets, makes a text well-formed, and leaves it as it was where it was so before.
/// A text that is read from units and encoded again is mended.
pub fn mending(units: &[u16])
    ensures offsets { length (mended units.now) ≡ length units.now }
    ensures units { (i : ℕ) → i < length units.now → slice_index (mended units.now) i ≡ mended_unit units.now i }
    ensures well_formed { IsWellFormed (mended units.now) }
    ensures kept { IsWellFormed units.now → mended units.now ≡ units.now }
    ensures read { utf16_of (text_of units.now) ≡ mended units.now }
{}

/// Each boundary of a mark moves with a splice by the table of movement.
pub fn movement(splice: Splice, mark: Mark)
    ensures { MovesByTable splice mark }
{}

/// Marks around a change, worked out: where they move, which are hit, which are found and how they
/// are ordered.
pub fn worked_marks()
    ensures { MarksWorkedOut }
{}

/// Literal hits, worked out: they don't overlap, and the first one that can be had is taken.
pub fn worked_hits()
    ensures apart { hits (97 ∷ 97 ∷ 97 ∷ 97 ∷ 97 ∷ []) (97 ∷ 97 ∷ []) ≡ 0 ∷ 2 ∷ [] }
    ensures first { hits (97 ∷ 98 ∷ 97 ∷ 98 ∷ 97 ∷ 98 ∷ 97 ∷ []) (97 ∷ 98 ∷ 97 ∷ []) ≡ 0 ∷ 4 ∷ [] }
    ensures none { hits (97 ∷ 98 ∷ []) (98 ∷ 97 ∷ []) ≡ [] }
    ensures shorter { hits (97 ∷ []) (97 ∷ 97 ∷ []) ≡ [] }
{}
