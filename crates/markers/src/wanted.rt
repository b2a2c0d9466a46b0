//! Which marks an answer has: the tests of the finds and of the four sets of hits.
ghost use Rattle.std.specs.Prelude.{◌≡◌, IfOk};
ghost use Rattle.points.specs.MarkList.{ids_where};
ghost use Rattle.markers.specs.Wanted.{passes};

use points::{Mark, NoMemory, Point, Range, Splice};
use std::alloc::Global;

/// A test on marks.
#[derive(Clone, Copy)]
pub(crate) enum Wanted {
    /// The mark has a point in common with the range.
    Intersecting(Range),
    /// The mark contains the range.
    Containing(Range),
    /// The range contains the mark.
    ContainedIn(Range),
    StartingIn(Range),
    StartingAt(Point),
    EndingIn(Range),
    EndingAt(Point),
    /// The mark has a point in common with the replaced text.
    Touched(Splice),
    /// It ends behind the start of the replaced text, and starts before its end.
    Inside(Splice),
    /// One of its boundaries lies strictly within it.
    Overlapped(Splice),
    /// It lies strictly within it.
    Surrounded(Splice),
}

impl Wanted {
    /// Whether the mark passes.
    pub(crate) fn passes(&self, mark: &Mark) -> bool
        ensures { result ≡ passes self.now mark.now }
    {
        match *self {
            Wanted::Intersecting(range) => mark.start <= range.end && range.start <= mark.end,
            Wanted::Containing(range) => mark.start <= range.start && range.end <= mark.end,
            Wanted::ContainedIn(range) => range.start <= mark.start && mark.end <= range.end,
            Wanted::StartingIn(range) => range.start <= mark.start && mark.start <= range.end,
            Wanted::StartingAt(point) => mark.start == point,
            Wanted::EndingIn(range) => range.start <= mark.end && mark.end <= range.end,
            Wanted::EndingAt(point) => mark.end == point,
            Wanted::Touched(splice) => splice.start <= mark.end && mark.start <= splice.old_end,
            Wanted::Inside(splice) => splice.start < mark.end && mark.start < splice.old_end,
            Wanted::Overlapped(splice) => {
                (splice.start < mark.start && mark.start < splice.old_end)
                    || (splice.start < mark.end && mark.end < splice.old_end)
            }
            Wanted::Surrounded(splice) => splice.start < mark.start && mark.end < splice.old_end,
        }
    }
}

/// The ids of the marks that pass, in their order. Room for `room` ids is made at once.
pub(crate) fn ids_where(
    alloc: Global,
    marks: &[Mark],
    wanted: Wanted,
    room: usize,
) -> Result<Vec<u32>, NoMemory>
    ensures { IfOk result (λ ids. ids.items ≡ ids_where (passes wanted) marks.now) }
{
    let mut ids = Vec::with_capacity(alloc, room)?;
    for mark in marks {
        if wanted.passes(mark) {
            ids.push(mark.id)?;
        }
    }
    Ok(ids)
}
