//! How a mark moves with a change of the text below it, and which marks a change hits.
ghost use Rattle.std.specs.Prelude.{◌≡◌, ◌<◌, ◌^◌, ◌&&◌, not, length, count_by, IfOk, if◌then◌else◌};
ghost use Rattle.std.specs.List.{All};
ghost use Rattle.points.specs.Point.{IsWithin, point_lt};
ghost use Rattle.points.specs.Marks.{moved, moved_boundary, is_empty_mark, touches, is_inside, overlaps, surrounds};
ghost use Rattle.points.specs.MarkList.{MarkIsWithin, all_moved, hit_counts};

use points::{HitCounts, MAX_COORD, Mark, NoMemory, Point, Splice, traversal, traverse};
use std::alloc::Global;

/// All marks, moved.
pub(crate) fn all_moved(
    alloc: Global,
    marks: &[Mark],
    splice: Splice,
) -> Result<Vec<Mark>, NoMemory>
    requires { All (MarkIsWithin MAX_COORD) (all_moved splice marks.now) }
    ensures { IfOk result (λ v. v.items ≡ all_moved splice marks.now) }
{
    let mut all = Vec::new(alloc);
    for mark in marks {
        all.push(moved(*mark, splice))?;
    }
    Ok(all)
}

// The mark with both its boundaries moved.
fn moved(mark: Mark, splice: Splice) -> Mark
    requires { MarkIsWithin MAX_COORD (moved splice mark) }
    ensures { result ≡ moved splice mark }
{
    Mark {
        start: moved_boundary(splice, mark, true, mark.start),
        end: moved_boundary(splice, mark, false, mark.end),
        ..mark
    }
}

// Where the boundary `point` of a mark goes, its start or its end: the first row of the table of movement that holds.
fn moved_boundary(splice: Splice, mark: Mark, is_start: bool, point: Point) -> Point
    requires { IsWithin MAX_COORD (moved_boundary splice mark is_start point) }
    ensures { result ≡ moved_boundary splice mark is_start point }
{
    let inserts = splice.start == splice.old_end;
    if point < splice.start {
        point
    } else if splice.old_end < point {
        traverse(splice.new_end, traversal(point, splice.old_end))
    } else if !inserts && point == splice.start {
        point
    } else if inserts && stays_outside(mark, is_start) {
        point
    } else {
        splice.new_end
    }
}

// Whether a boundary stays where text is inserted at it.
fn stays_outside(mark: Mark, is_start: bool) -> bool
    ensures { result ≡ (if mark.exclusive then not is_start && not (is_empty_mark mark) else is_start) }
{
    if mark.exclusive {
        !is_start && mark.start != mark.end
    } else {
        is_start
    }
}

/// How many marks the change hits, in each of the four senses.
pub(crate) fn hit_counts(marks: &[Mark], splice: Splice) -> HitCounts
    requires { length marks.now < 2 ^ 32 }
    ensures { result ≡ hit_counts splice marks.now }
{
    HitCounts {
        touch: touched(marks, splice),
        inside: inside(marks, splice),
        overlap: overlapped(marks, splice),
        surround: surrounded(marks, splice),
    }
}

// How many marks have a point in common with the replaced text.
fn touched(marks: &[Mark], splice: Splice) -> u32
    requires { length marks.now < 2 ^ 32 }
    ensures { result ≡ count_by (touches splice) marks.now }
{
    let hit = |mark: &&Mark| splice.start <= mark.end && mark.start <= splice.old_end;
    marks.iter().filter(hit).count() as u32
}

// How many end behind its start and start before its end.
fn inside(marks: &[Mark], splice: Splice) -> u32
    requires { length marks.now < 2 ^ 32 }
    ensures { result ≡ count_by (is_inside splice) marks.now }
{
    let hit = |mark: &&Mark| splice.start < mark.end && mark.start < splice.old_end;
    marks.iter().filter(hit).count() as u32
}

// How many have a boundary strictly within it.
fn overlapped(marks: &[Mark], splice: Splice) -> u32
    requires { length marks.now < 2 ^ 32 }
    ensures { result ≡ count_by (overlaps splice) marks.now }
{
    let hit = |mark: &&Mark| overlaps(splice, **mark);
    marks.iter().filter(hit).count() as u32
}

// Whether a boundary of the mark lies strictly within the replaced text.
fn overlaps(splice: Splice, mark: Mark) -> bool
    ensures { result ≡ overlaps splice mark }
{
    is_within(splice, mark.start) || is_within(splice, mark.end)
}

// Whether a point lies strictly within the replaced text.
fn is_within(splice: Splice, point: Point) -> bool
    ensures { result ≡ (point_lt splice.start point && point_lt point splice.old_end) }
{
    splice.start < point && point < splice.old_end
}

// How many lie strictly within it.
fn surrounded(marks: &[Mark], splice: Splice) -> u32
    requires { length marks.now < 2 ^ 32 }
    ensures { result ≡ count_by (surrounds splice) marks.now }
{
    let hit = |mark: &&Mark| splice.start < mark.start && mark.end < splice.old_end;
    marks.iter().filter(hit).count() as u32
}
