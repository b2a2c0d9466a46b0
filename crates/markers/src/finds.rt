//! The marks that stand so to a range or a point, by their ids.
ghost use Rattle.std.specs.Prelude.{◌≡◌, IfOk};
ghost use Rattle.points.specs.Marks.{intersects, contains, is_contained_in, starts_in, starts_at, ends_in, ends_at};
ghost use Rattle.points.specs.MarkList.{ids_where};
ghost use Rattle.markers.specs.Wanted.{passes};

use crate::index::MarkerIndex;
use crate::wanted::{Wanted, ids_where};
use points::{NoMemory, Point, Range};

impl MarkerIndex {
    /// The ids of the marks that have a point in common with the range.
    pub fn find_intersecting(&self, range: Range) -> Result<Vec<u32>, NoMemory>
        ensures { IfOk result (λ ids. ids.items ≡ ids_where (intersects range.start range.end) self.now) }
    {
        self.ids_where(Wanted::Intersecting(range))
    }

    /// The ids of the marks that contain the range.
    pub fn find_containing(&self, range: Range) -> Result<Vec<u32>, NoMemory>
        ensures { IfOk result (λ ids. ids.items ≡ ids_where (contains range.start range.end) self.now) }
    {
        self.ids_where(Wanted::Containing(range))
    }

    /// The ids of the marks that the range contains.
    pub fn find_contained_in(&self, range: Range) -> Result<Vec<u32>, NoMemory>
        ensures { IfOk result (λ ids. ids.items ≡ ids_where (is_contained_in range.start range.end) self.now) }
    {
        self.ids_where(Wanted::ContainedIn(range))
    }

    /// The ids of the marks whose start is in the range, its ends included.
    pub fn find_starting_in(&self, range: Range) -> Result<Vec<u32>, NoMemory>
        ensures { IfOk result (λ ids. ids.items ≡ ids_where (starts_in range.start range.end) self.now) }
    {
        self.ids_where(Wanted::StartingIn(range))
    }

    /// The ids of the marks that start at the point.
    pub fn find_starting_at(&self, point: Point) -> Result<Vec<u32>, NoMemory>
        ensures { IfOk result (λ ids. ids.items ≡ ids_where (starts_at point) self.now) }
    {
        self.ids_where(Wanted::StartingAt(point))
    }

    /// The ids of the marks whose end is in the range, its ends included.
    pub fn find_ending_in(&self, range: Range) -> Result<Vec<u32>, NoMemory>
        ensures { IfOk result (λ ids. ids.items ≡ ids_where (ends_in range.start range.end) self.now) }
    {
        self.ids_where(Wanted::EndingIn(range))
    }

    /// The ids of the marks that end at the point.
    pub fn find_ending_at(&self, point: Point) -> Result<Vec<u32>, NoMemory>
        ensures { IfOk result (λ ids. ids.items ≡ ids_where (ends_at point) self.now) }
    {
        self.ids_where(Wanted::EndingAt(point))
    }

    // The ids of the marks that pass.
    fn ids_where(&self, wanted: Wanted) -> Result<Vec<u32>, NoMemory>
        ensures { IfOk result (λ ids. ids.items ≡ ids_where (passes wanted) self.now) }
    {
        ids_where(*self.marks.allocator(), self.marks.as_slice(), wanted, 0)
    }
}
