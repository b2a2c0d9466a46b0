//! Laws on marks: each is a function whose contract is the law.
ghost use Rattle.std.specs.Prelude.{◌≡◌, ℕ, ◌≤◌, List, length};
ghost use Rattle.std.specs.List.{All};
ghost use Rattle.points.specs.Point.{traversal};
ghost use Rattle.points.specs.Place.{extent, point_at};
ghost use Rattle.points.specs.Text.{replaced};
ghost use Rattle.points.specs.Marks.{splice_of};
ghost use Rattle.points.specs.MarkList.{SpliceIsWithin, all_moved};
ghost use Rattle.points.specs.MarkText.{IsMarkOf, splice_in};

use crate::index::MarkerIndex;
use points::MAX_COORD;

/// Marks whose ends are points of a text of at most 2^30 units may be spliced with any replacement
/// that leaves at most 2^30 units, and then their ends are points of the text after it.
pub fn marks_keep_to_their_text(index: &MarkerIndex)
    // the splice of a replacement is what its start and two extents give
    ensures splice { (t s : List ℕ) (i j : ℕ) → i ≤ j → j ≤ length t
        → splice_of (point_at t i) (traversal (point_at t j) (point_at t i)) (extent s) ≡ splice_in t i j s }
    ensures fits { (t s : List ℕ) (i j : ℕ) → i ≤ j → j ≤ length t → length t ≤ MAX_COORD → length (replaced t i j s) ≤ MAX_COORD
        → All (IsMarkOf t) index.now → SpliceIsWithin MAX_COORD (splice_in t i j s) index.now }
    ensures kept { (t s : List ℕ) (i j : ℕ) → i ≤ j → j ≤ length t
        → All (IsMarkOf t) index.now → All (IsMarkOf (replaced t i j s)) (all_moved (splice_in t i j s) index.now) }
{}
