//! Whether a splice keeps every coordinate within the greatest one.
ghost use Rattle.std.specs.Prelude.{◌↔◌, IsTrue};
ghost use Rattle.points.specs.Point.{IsWithin};
ghost use Rattle.points.specs.Marks.{moved, moved_boundary, splice_of};
ghost use Rattle.points.specs.MarkList.{MarkIsWithin, SpliceIsWithin};

use crate::index::MarkerIndex;
use crate::movement::{moved_upto, splice_of};
use points::{MAX_COORD, Mark, Point, Splice, leads_near, traversal};

impl MarkerIndex {
    /// Whether a splice may be made: no end of it, and no end of any mark after it, passes
    /// [`MAX_COORD`](points::MAX_COORD) in a coordinate. This goes over all marks. Where the ends of
    /// all marks are points of a text of at most 2^30 units, before and after, it is always so: see
    /// [`laws`](crate::laws).
    pub fn fits(&self, start: Point, old_extent: Point, new_extent: Point) -> bool
        ensures { IsTrue result ↔ SpliceIsWithin MAX_COORD (splice_of start old_extent new_extent) self.now }
    {
        if !leads_near(start, old_extent) || !leads_near(start, new_extent) {
            return false;
        }
        let splice = splice_of(start, old_extent, new_extent);
        for mark in &self.marks {
            if !mark_fits(*mark, splice) {
                return false;
            }
        }
        true
    }
}

// Whether no coordinate of the moved mark passes the greatest one.
fn mark_fits(mark: Mark, splice: Splice) -> bool
    ensures { IsTrue result ↔ MarkIsWithin MAX_COORD (moved splice mark) }
{
    boundary_fits(mark.start, true, mark, splice) && boundary_fits(mark.end, false, mark, splice)
}

// Whether no coordinate of the moved boundary passes the greatest one.
fn boundary_fits(boundary: Point, is_start: bool, mark: Mark, splice: Splice) -> bool
    ensures { IsTrue result ↔ IsWithin MAX_COORD (moved_boundary splice mark is_start boundary) }
{
    if boundary >= splice.start && boundary > splice.old_end {
        leads_near(splice.new_end, traversal(boundary, splice.old_end))
    } else {
        !moved_upto(boundary, is_start, mark, splice).is_far()
    }
}
