//! How marks move with a splice.
ghost use Rattle.std.specs.Prelude.{◌≡◌, ◌||◌, not, IsTrue, IfOk, OnOk, OnErr};
ghost use Rattle.std.specs.List.{All};
ghost use Rattle.points.specs.Point.{IsWithin, point_le, point_lt};
ghost use Rattle.points.specs.Marks.{moved, moved_boundary, splice_of};
ghost use Rattle.points.specs.MarkList.{MarkIsWithin, SpliceIsWithin, all_moved, hit_counts, hits_of};
ghost use Rattle.markers.specs.Index.{IsIndex};

use crate::hits::{counts_of, hits_of};
use crate::index::MarkerIndex;
use points::{HitCounts, Hits, MAX_COORD, Mark, NoMemory, Point, Splice, traversal, traverse};

impl MarkerIndex {
    /// Moves all marks with a change: the text behind `start` of the extent `old_extent` gives way
    /// to a text of the extent `new_extent`. The answer has the marks that the change hits where
    /// they stood before it.
    pub fn splice(
        &mut self,
        start: Point,
        old_extent: Point,
        new_extent: Point,
    ) -> Result<Hits, NoMemory>
        requires { SpliceIsWithin MAX_COORD (splice_of start old_extent new_extent) self.old }
        ensures ok { OnOk result (self.new ≡ all_moved (splice_of start old_extent new_extent) self.old) }
        ensures err { OnErr result (self.new ≡ self.old) }
        ensures hits { IfOk result (λ hits. hits ≡ hits_of (splice_of start old_extent new_extent) self.old) }
    {
        let splice = splice_of(start, old_extent, new_extent);
        let alloc = *self.marks.allocator();
        let hits = hits_of(alloc, self.marks.as_slice(), splice)?;
        move_all(&mut self.marks, splice);
        Ok(hits)
    }

    /// Moves all marks as [`splice`](Self::splice) does, and answers only how many it hits. It
    /// takes no memory.
    pub fn splice_counts(&mut self, start: Point, old_extent: Point, new_extent: Point) -> HitCounts
        requires { SpliceIsWithin MAX_COORD (splice_of start old_extent new_extent) self.old }
        ensures moved { self.new ≡ all_moved (splice_of start old_extent new_extent) self.old }
        ensures counts { result ≡ hit_counts (splice_of start old_extent new_extent) self.old }
    {
        let splice = splice_of(start, old_extent, new_extent);
        let counts = counts_of(self.marks.as_slice(), splice);
        move_all(&mut self.marks, splice);
        counts
    }
}

// Moves each mark.
fn move_all(marks: &mut Vec<Mark>, splice: Splice)
    requires index { IsIndex marks.old.items }
    requires old_end { IsTrue (point_le splice.start splice.old_end) }
    requires new_end { IsTrue (point_le splice.start splice.new_end) }
    requires within { All (MarkIsWithin MAX_COORD) (all_moved splice marks.old.items) }
    ensures moved { marks.new.items ≡ all_moved splice marks.old.items }
    ensures index { IsIndex marks.new.items }
{
    for at in 0..marks.len() {
        marks[at] = moved(marks[at], splice);
    }
}

/// The splice that replaces the extent `old_extent` behind `start` by the extent `new_extent`.
pub(crate) fn splice_of(start: Point, old_extent: Point, new_extent: Point) -> Splice
    requires old_end { IsWithin MAX_COORD (splice_of start old_extent new_extent).old_end }
    requires new_end { IsWithin MAX_COORD (splice_of start old_extent new_extent).new_end }
    ensures { result ≡ splice_of start old_extent new_extent }
{
    Splice {
        start,
        old_end: traverse(start, old_extent),
        new_end: traverse(start, new_extent),
    }
}

// The mark with both its boundaries moved.
fn moved(mark: Mark, splice: Splice) -> Mark
    requires { MarkIsWithin MAX_COORD (moved splice mark) }
    ensures { result ≡ moved splice mark }
{
    Mark {
        id: mark.id,
        start: moved_boundary(mark.start, true, mark, splice),
        end: moved_boundary(mark.end, false, mark, splice),
        exclusive: mark.exclusive,
    }
}

// Where a boundary of the mark goes: its start, or else its end.
fn moved_boundary(boundary: Point, is_start: bool, mark: Mark, splice: Splice) -> Point
    requires { IsWithin MAX_COORD (moved_boundary splice mark is_start boundary) }
    ensures { result ≡ moved_boundary splice mark is_start boundary }
{
    if boundary >= splice.start && boundary > splice.old_end {
        traverse(splice.new_end, traversal(boundary, splice.old_end))
    } else {
        moved_upto(boundary, is_start, mark, splice)
    }
}

/// Where a boundary of the mark goes that doesn't lie behind the replaced text.
pub(crate) fn moved_upto(boundary: Point, is_start: bool, mark: Mark, splice: Splice) -> Point
    requires { IsTrue (point_lt boundary splice.start || not (point_lt splice.old_end boundary)) }
    ensures { result ≡ moved_boundary splice mark is_start boundary }
{
    if boundary < splice.start {
        return boundary;
    }
    // Text that is inserted at an end becomes a part of an inclusive mark. It stays outside an
    // exclusive one, and an empty one goes behind it.
    let stays = if splice.start != splice.old_end {
        boundary == splice.start
    } else if mark.exclusive {
        !is_start && mark.start != mark.end
    } else {
        is_start
    };
    if stays { boundary } else { splice.new_end }
}
