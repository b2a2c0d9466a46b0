//! The calls on marks, over a list of marks.
ghost use Rattle.std.specs.Prelude.{◌≡◌, ◌==◌, not, nat_lt, IfOk};
ghost use Rattle.std.specs.List.{filter};
ghost use Rattle.points.specs.Marks.{comes_before, mark_order};
ghost use Rattle.points.specs.MarkList.{ids_where, mark_with, with_mark, without_mark, made_exclusive, with_exclusive};
ghost use Rattle.machine.specs.Machine.{finds};

use machine::How;
use points::{Mark, MarkOrder, NoMemory, Range};
use std::alloc::{AllocError, Global};

/// The mark with this id.
pub(crate) fn mark_with(marks: &[Mark], id: u32) -> Option<Mark>
    ensures { result ≡ mark_with id marks.now }
{
    marks.iter().find(|mark| mark.id == id).copied()
}

/// The marks with a new one.
pub(crate) fn with_mark(alloc: Global, marks: &[Mark], new: Mark) -> Result<Vec<Mark>, NoMemory>
    ensures { IfOk result (λ v. v.items ≡ with_mark new marks.now) }
{
    let mut all = below(alloc, marks, new.id)?;
    let above = above(alloc, marks, new.id)?;
    all.push(new)?;
    all.extend_from_slice(above.as_slice())?;
    Ok(all)
}

// The marks with lesser ids.
fn below(alloc: Global, marks: &[Mark], id: u32) -> Result<Vec<Mark>, AllocError>
    ensures { IfOk result (λ v. v.items ≡ filter (λ m. nat_lt m.id id) marks.now) }
{
    let lesser = marks.iter().copied().filter(|mark| mark.id < id);
    lesser.collect(alloc)
}

// The marks with greater ids.
fn above(alloc: Global, marks: &[Mark], id: u32) -> Result<Vec<Mark>, AllocError>
    ensures { IfOk result (λ v. v.items ≡ filter (λ m. nat_lt id m.id) marks.now) }
{
    let greater = marks.iter().copied().filter(|mark| id < mark.id);
    greater.collect(alloc)
}

/// The marks without the one of this id.
pub(crate) fn without_mark(alloc: Global, marks: &[Mark], id: u32) -> Result<Vec<Mark>, AllocError>
    ensures { IfOk result (λ v. v.items ≡ without_mark id marks.now) }
{
    let others = marks.iter().copied().filter(|mark| mark.id != id);
    others.collect(alloc)
}

/// The marks with the one of this id made exclusive or inclusive.
pub(crate) fn with_exclusive(
    alloc: Global,
    marks: &[Mark],
    id: u32,
    exclusive: bool,
) -> Result<Vec<Mark>, AllocError>
    ensures { IfOk result (λ v. v.items ≡ with_exclusive id exclusive marks.now) }
{
    let all = marks
        .iter()
        .map(|mark| made_exclusive(*mark, id, exclusive));
    all.collect(alloc)
}

// The mark, made exclusive or inclusive if it has this id.
fn made_exclusive(mark: Mark, id: u32, exclusive: bool) -> Mark
    ensures { result ≡ made_exclusive id exclusive mark }
{
    if mark.id == id {
        Mark { exclusive, ..mark }
    } else {
        mark
    }
}

/// The ids of the marks that stand to the range as `how` says.
pub(crate) fn ids_where(
    alloc: Global,
    marks: &[Mark],
    how: How,
    range: Range,
) -> Result<Vec<u32>, AllocError>
    ensures { IfOk result (λ ids. ids.items ≡ ids_where (finds how range.start range.end) marks.now) }
{
    let found = marks
        .iter()
        .copied()
        .filter(|mark| finds(how, range, *mark));
    found.map(|mark| mark.id).collect(alloc)
}

// Whether the mark stands so to the range.
fn finds(how: How, range: Range, mark: Mark) -> bool
    ensures { result ≡ finds how range.start range.end mark }
{
    match how {
        How::Intersecting => mark.start <= range.end && range.start <= mark.end,
        How::Containing => mark.start <= range.start && range.end <= mark.end,
        How::ContainedIn => range.start <= mark.start && mark.end <= range.end,
        How::StartingIn => range.start <= mark.start && mark.start <= range.end,
        How::StartingAt => mark.start == range.start,
        How::EndingIn => range.start <= mark.end && mark.end <= range.end,
        How::EndingAt => mark.end == range.start,
    }
}

/// How the first mark stands to the second.
pub(crate) fn mark_order(a: Mark, b: Mark) -> MarkOrder
    ensures { result ≡ mark_order a b }
{
    if comes_before(a, b) {
        MarkOrder::Before
    } else if comes_before(b, a) {
        MarkOrder::After
    } else {
        MarkOrder::Same
    }
}

// Whether `a` comes first: by start, then the greater end first, then the lesser id.
fn comes_before(a: Mark, b: Mark) -> bool
    ensures { result ≡ comes_before a b }
{
    a.start < b.start || (a.start == b.start && (b.end < a.end || (a.end == b.end && a.id < b.id)))
}
