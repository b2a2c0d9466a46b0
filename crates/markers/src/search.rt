//! Marks found by id, compared, and the last of their ends.
ghost use Rattle.std.specs.Prelude.{◌≡◌, option_map, IsTrue, IsSome, IsNone, IfOk, IfErr, IfSome, OnOk, OnErr};
ghost use Rattle.std.specs.Result.{result_ok};
ghost use Rattle.points.specs.Point.{point_le};
ghost use Rattle.points.specs.Marks.{comes_before, mark_order};
ghost use Rattle.points.specs.MarkList.{AreMarks, mark_with, last_end};
ghost use Rattle.markers.specs.Search.{StandsAt, IsGap, later_of, mark_seen, order_between};

use crate::index::MarkerIndex;
use crate::refusal::MarkUnknown;
use points::{Mark, MarkOrder, Point, Range};

impl MarkerIndex {
    /// The range of a mark, and whether it is exclusive.
    pub fn range_of(&self, id: u32) -> Result<(Range, bool), MarkUnknown>
        ensures { option_map (mark_seen id) (result_ok result) ≡ mark_with id self.now }
    {
        let Some(mark) = mark_with(self.marks.as_slice(), id) else {
            return Err(MarkUnknown);
        };
        Ok((Range::new(mark.start, mark.end), mark.exclusive))
    }

    /// How the mark of the first id stands to that of the second.
    pub fn compare(&self, a: u32, b: u32) -> Result<MarkOrder, MarkUnknown>
        ensures { result_ok result ≡ order_between a b self.now }
    {
        let Some(first) = mark_with(self.marks.as_slice(), a) else {
            return Err(MarkUnknown);
        };
        let Some(second) = mark_with(self.marks.as_slice(), b) else {
            return Err(MarkUnknown);
        };
        Ok(mark_order(first, second))
    }

    /// The greatest end of a mark; none where there is no mark.
    pub fn last(&self) -> Option<Point>
        ensures { result ≡ last_end self.now }
    {
        let mut last = None;
        for mark in &self.marks {
            last = Some(later(last, mark.end));
        }
        last
    }
}

/// Where the mark with this id stands, or else where it would stand.
pub(crate) fn place_of(marks: &[Mark], id: u32) -> Result<usize, usize>
    requires { AreMarks marks.now }
    ensures found { IfOk result (StandsAt id marks.now) }
    ensures gap { IfErr result (IsGap id marks.now) }
    ensures known { OnOk result (IsSome (mark_with id marks.now)) }
    ensures unknown { OnErr result (IsNone (mark_with id marks.now)) }
{
    let at = marks.partition_point(|mark| mark.id < id);
    if at < marks.len() && marks[at].id == id {
        Ok(at)
    } else {
        Err(at)
    }
}

// The mark with this id.
fn mark_with(marks: &[Mark], id: u32) -> Option<Mark>
    requires { AreMarks marks.now }
    ensures mark { result ≡ mark_with id marks.now }
    ensures range { IfSome result (λ mark. IsTrue (point_le mark.start mark.end)) }
{
    match place_of(marks, id) {
        Ok(at) => Some(marks[at]),
        Err(_) => None,
    }
}

// How the first mark stands to the second.
fn mark_order(a: Mark, b: Mark) -> MarkOrder
    ensures { result ≡ mark_order a b }
{
    if comes_before(a, b) {
        MarkOrder::Before
    } else if comes_before(b, a) {
        MarkOrder::After
    } else {
        MarkOrder::Same
    }
}

// Whether `a` comes first: by start, then the greater end first, then the lesser id.
fn comes_before(a: Mark, b: Mark) -> bool
    ensures { result ≡ comes_before a b }
{
    a.start < b.start || (a.start == b.start && (b.end < a.end || (a.end == b.end && a.id < b.id)))
}

// The later of two points, or the one that there is.
fn later(known: Option<Point>, point: Point) -> Point
    ensures { result ≡ later_of known point }
{
    match known {
        Some(end) if point < end => end,
        _ => point,
    }
}
