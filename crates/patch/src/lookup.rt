//! Look-ups by halving: the starts of changes rise, and so do their ends. Which change a point belongs
//! to, which changes a range touches, and where a point goes.
ghost use Rattle.std.specs.Prelude.{◌≡◌, ◌-◌, ℕ, List, length, slice_get, nat_lt, if◌then◌else◌, Option, option_map, option_and_then};
ghost use Rattle.points.specs.Place.{point_at};
ghost use Rattle.points.specs.Distance.{near};
ghost use Rattle.patch.specs.Hunk.{hunk_seen};
ghost use Rattle.patch.specs.ChangeList.{IsPatch};
ghost use Rattle.patch.specs.Fit.{Fits, applied};
ghost use Rattle.patch.specs.Surviving.{Survives};
ghost use Rattle.patch.specs.LookUp.{change_for_old, change_for_new, changes_in_old, changes_in_new, moved_over, to_new, to_old};

use crate::change::{ChangeView, Run};
use crate::patch::Patch;
use points::{Point, Range, leads_within, traversal, traverse_near};

impl Patch {
    /// The last change whose old start is at most the point; none where all stand behind it.
    pub fn change_for_old(&self, point: Point) -> Option<usize>
        ensures { result ≡ change_for_old self.now.changes point }
    {
        let changes = self.as_slice();
        let behind = changes.partition_point(|change| change.old_range.start <= point);
        behind.checked_sub(1)
    }

    /// The last change whose new start is at most the point; none where all stand behind it.
    pub fn change_for_new(&self, point: Point) -> Option<usize>
        ensures { result ≡ change_for_new self.now.changes point }
    {
        let changes = self.as_slice();
        let behind = changes.partition_point(|change| change.new_range.start <= point);
        behind.checked_sub(1)
    }

    /// The changes whose old range starts at the range's end or before it and ends at its start or
    /// behind it.
    pub fn changes_in_old(&self, range: Range) -> Run
        ensures { result ≡ changes_in_old self.now.changes range.start range.end }
    {
        let changes = self.as_slice();
        let first = changes.partition_point(|change| change.old_range.end < range.start);
        let stop = changes.partition_point(|change| change.old_range.start <= range.end);
        run_between(first, stop)
    }

    /// The changes whose new range starts at the range's end or before it and ends at its start or
    /// behind it.
    pub fn changes_in_new(&self, range: Range) -> Run
        ensures { result ≡ changes_in_new self.now.changes range.start range.end }
    {
        let changes = self.as_slice();
        let first = changes.partition_point(|change| change.new_range.end < range.start);
        let stop = changes.partition_point(|change| change.new_range.start <= range.end);
        run_between(first, stop)
    }

    /// Where a point of the old text stands in the new one. At the end of a change or behind it,
    /// it keeps its distance from the end; inside one, its distance from the start, up to the new
    /// end. So the point of a unit that survives goes to its point in the new text. None where a
    /// coordinate passes [`MAX_COORD`](points::MAX_COORD).
    pub fn to_new(&self, point: Point) -> Option<Point>
        ensures value { result ≡ to_new self.now.changes point }
        ensures survivor { (s : List ℕ) (i j : ℕ) → Fits self.now.changes s → Survives self.now.changes s i j
            → point ≡ point_at s i → result ≡ near (point_at (applied self.now.changes s) j) }
    {
        match self.change_if(self.change_for_old(point)) {
            None => near(point),
            Some(change) => moved_over(point, change.old_range, change.new_range),
        }
    }

    /// Where a point of the new text stands in the old one, as [`to_new`](Patch::to_new) with the
    /// sides exchanged.
    pub fn to_old(&self, point: Point) -> Option<Point>
        ensures value { result ≡ to_old self.now.changes point }
        ensures survivor { (s : List ℕ) (i j : ℕ) → Fits self.now.changes s → Survives self.now.changes s i j
            → point ≡ point_at (applied self.now.changes s) j → result ≡ near (point_at s i) }
    {
        match self.change_if(self.change_for_new(point)) {
            None => near(point),
            Some(change) => moved_over(point, change.new_range, change.old_range),
        }
    }

    // The change at an index, where there is an index.
    fn change_if(&self, at: Option<usize>) -> Option<ChangeView<'_>>
        ensures value { option_map hunk_seen result ≡ option_and_then (slice_get self.now.changes) at }
        ensures kept { IsPatch self.now.changes }
    {
        let _kept = self.as_slice();
        self.change(at?)
    }
}

// The run from one index up to another, or the empty one.
fn run_between(first: usize, stop: usize) -> Run
    ensures first { result.first ≡ (if nat_lt first stop then first else 0) }
    ensures count { result.count ≡ stop - first }
{
    if first < stop {
        Run {
            first,
            count: stop - first,
        }
    } else {
        Run { first: 0, count: 0 }
    }
}

// Where a point goes that stands at the start of a replaced range, or behind it.
fn moved_over(point: Point, from: Range, to: Range) -> Option<Point>
    ensures { result ≡ near (moved_over from.start from.end to.start to.end point) }
{
    if from.end <= point {
        return traverse_near(to.end, traversal(point, from.end));
    }
    let reach = traversal(point, from.start);
    if leads_within(to.start, reach, to.end) {
        traverse_near(to.start, reach)
    } else {
        near(to.end)
    }
}

// The point, where no coordinate passes the greatest one.
fn near(point: Point) -> Option<Point>
    ensures { result ≡ near point }
{
    if point.is_far() { None } else { Some(point) }
}
