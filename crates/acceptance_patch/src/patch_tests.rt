//! Patches by themselves: lists of changes, look-ups, stretches, and moves of the old text.
use crate::patch_cases::{Row, at, has_changes, has_fault, is_patch, patch_of, range, units};
use patch::{ListRefusal, Patch, PatchRefusal, Stretch, laws};
use points::{MAX_COORD, Point};
use std::alloc::Global;
use std::test::Fail;

// `bc` in `abcdef..` to `X`.
const BC: Row = ([0, 1, 0, 3], "bc", [0, 1, 0, 2], "X");

// Behind it the rest of the row to two line feeds and `Y`.
const EF: Row = ([0, 4, 0, 6], "ef", [0, 3, 2, 1], "\n\nY");

#[test]
fn faults_of_the_first_change(rt: HostRuntime) {
    let last = MAX_COORD;
    let cases = [
        (
            ([0, 1, 0, 3], "b", [0, 1, 0, 2], "X"),
            Some(ListRefusal::ExtentMismatch { at: 0 }),
        ),
        (
            ([0, 1, 0, 2], "b", [0, 2, 0, 3], "X"),
            Some(ListRefusal::ExtentMismatch { at: 0 }),
        ),
        (
            ([0, 1, 0, 1], "", [0, 1, 0, 1], ""),
            Some(ListRefusal::EmptyChange { at: 0 }),
        ),
        (
            ([0, last, 0, last], "", [0, last, 0, last + 1], "X"),
            Some(ListRefusal::TooFar { at: 0 }),
        ),
        (([0, 0, 0, 0], "", [0, 0, 0, 1], "X"), None),
    ];
    for (row, fault) in cases {
        assert!(rt; has_fault(rt.alloc(), &[row], fault));
    }
}

#[test]
fn faults_of_a_later_change(rt: HostRuntime) {
    let far = MAX_COORD + 1;
    let cases = [
        (
            ([0, 2, 0, 4], "cd", [0, 3, 0, 4], "Y"),
            ListRefusal::NotSorted { at: 1 },
        ),
        (
            ([0, 4, 0, 5], "e", [0, 1, 0, 2], "Y"),
            ListRefusal::NotSorted { at: 1 },
        ),
        (
            ([0, 3, 0, 4], "d", [0, 2, 0, 3], "Y"),
            ListRefusal::NotApart { at: 1 },
        ),
        (
            ([0, 4, 0, 5], "e", [0, 4, 0, 5], "Y"),
            ListRefusal::ExtentMismatch { at: 1 },
        ),
        (
            ([0, 4, 0, 4], "", [0, 3, 0, 3], ""),
            ListRefusal::EmptyChange { at: 1 },
        ),
        (
            ([far, 0, far, 0], "", [far, 0, far, 1], "Y"),
            ListRefusal::TooFar { at: 1 },
        ),
    ];
    for (row, fault) in cases {
        assert!(rt; has_fault(rt.alloc(), &[BC, row], Some(fault)));
    }
}

// Whether a patch of two changes shows them; its laws are called, and say nothing here.
fn shows(alloc: Global, patch: &Patch) -> bool {
    laws::some_text_fits(patch);
    laws::rules_are_kept(patch);
    patch.units() == 8 && patch.changes().count() == 2 && has_changes(alloc, patch, &[BC, EF])
}

#[test]
fn shows_its_changes(rt: HostRuntime) -> Result<(), Fail> {
    let patch = patch_of(rt.alloc(), &[BC, EF]).ok_or("no patch")?;
    assert!(rt; shows(rt.alloc(), &patch));
    assert!(rt; is_patch(rt.alloc(), Some(Patch::new(rt.alloc())), &[]));
    Ok(())
}

// Whether a clone of the patch of these rows has them.
fn clones(alloc: Global, rows: &[Row]) -> bool {
    match patch_of(alloc, rows) {
        Some(patch) => is_patch(alloc, patch.try_clone().ok(), rows),
        None => false,
    }
}

#[test]
fn clones_have_equal_changes(rt: HostRuntime) {
    let apart = [BC, ([0, 6, 0, 8], "gh", [0, 5, 0, 6], "Y")];
    assert!(rt; clones(rt.alloc(), &apart));
    let nearer = [BC, ([0, 5, 0, 7], "fg", [0, 4, 0, 5], "Y")];
    assert!(rt; clones(rt.alloc(), &nearer));
}

fn inverts(alloc: Global, rows: &[Row], back: &[Row]) -> bool {
    match patch_of(alloc, rows) {
        Some(patch) => is_patch(alloc, patch.invert().ok(), back),
        None => false,
    }
}

#[test]
fn inverse_of_an_insertion_deletes(rt: HostRuntime) {
    let insertion = [([0, 1, 0, 1], "", [0, 1, 0, 2], "X")];
    let deletion = [([0, 1, 0, 2], "X", [0, 1, 0, 1], "")];
    assert!(rt; inverts(rt.alloc(), &insertion, &deletion));
}

fn finds_old(patch: &Patch, point: Point, found: Option<usize>) -> bool {
    patch.change_for_old(point) == found
}

fn finds_new(patch: &Patch, point: Point, found: Option<usize>) -> bool {
    patch.change_for_new(point) == found
}

fn finds_by_points(patch: &Patch) -> bool {
    finds_old(patch, at(0, 0), None)
        && finds_old(patch, at(0, 1), Some(0))
        && finds_old(patch, at(0, 3), Some(0))
        && finds_old(patch, at(0, 4), Some(1))
        && finds_new(patch, at(0, 2), Some(0))
        && finds_new(patch, at(7, 0), Some(1))
}

#[test]
fn finds_changes_by_points(rt: HostRuntime) -> Result<(), Fail> {
    let patch = patch_of(rt.alloc(), &[BC, EF]).ok_or("no patch")?;
    assert!(rt; finds_by_points(&patch));
    Ok(())
}

// Whether these are the changes whose old range, or new one, touches the range.
fn touches(patch: &Patch, of_new: bool, ends: [u32; 4], run: [usize; 2]) -> bool {
    let Some(range) = range(ends) else {
        return false;
    };
    let found = if of_new {
        patch.changes_in_new(range)
    } else {
        patch.changes_in_old(range)
    };
    found.first == run[0] && found.count == run[1]
}

fn finds_by_ranges(patch: &Patch) -> bool {
    touches(patch, false, [0, 0, 0, 0], [0, 0])
        && touches(patch, false, [0, 3, 0, 3], [0, 1])
        && touches(patch, false, [0, 2, 0, 4], [0, 2])
        && touches(patch, true, [1, 0, 1, 5], [1, 1])
        && touches(patch, true, [2, 2, 9, 0], [0, 0])
}

#[test]
fn finds_changes_by_ranges(rt: HostRuntime) -> Result<(), Fail> {
    let patch = patch_of(rt.alloc(), &[BC, EF]).ok_or("no patch")?;
    assert!(rt; finds_by_ranges(&patch));
    Ok(())
}

fn all_to_new(patch: &Patch, moves: &[(Point, Option<Point>)]) -> bool {
    for (point, moved) in moves {
        if patch.to_new(*point) != *moved {
            return false;
        }
    }
    true
}

fn all_to_old(patch: &Patch, moves: &[(Point, Option<Point>)]) -> bool {
    for (point, moved) in moves {
        if patch.to_old(*point) != *moved {
            return false;
        }
    }
    true
}

#[test]
fn moves_points_over_changes(rt: HostRuntime) -> Result<(), Fail> {
    let patch = patch_of(rt.alloc(), &[BC, EF]).ok_or("no patch")?;
    let to_new = [
        (at(0, 0), Some(at(0, 0))),
        (at(0, 1), Some(at(0, 1))),
        (at(0, 2), Some(at(0, 2))),
        (at(0, 3), Some(at(0, 2))),
        (at(0, 5), Some(at(0, 4))),
        (at(0, 6), Some(at(2, 1))),
        (at(1, 3), Some(at(3, 3))),
        (at(MAX_COORD, 0), None),
        (at(0, MAX_COORD + 4), Some(at(2, MAX_COORD - 1))),
    ];
    assert!(rt; all_to_new(&patch, &to_new));
    let to_old = [(at(2, 4), Some(at(0, 9))), (at(1, 0), Some(at(0, 6)))];
    assert!(rt; all_to_old(&patch, &to_old));
    Ok(())
}

// Moves the patch of `rows` as the old text's range from `start` up to `old_end` becomes one up to
// `new_end`. Whether the refusal and the changes left are these.
fn moves_old(
    alloc: Global,
    rows: &[Row],
    points: [Point; 3],
    refusal: Option<PatchRefusal>,
    left: &[Row],
) -> bool {
    match patch_of(alloc, rows) {
        Some(mut patch) => moves(&mut patch, points, refusal) && has_changes(alloc, &patch, left),
        None => false,
    }
}

fn moves(patch: &mut Patch, points: [Point; 3], refusal: Option<PatchRefusal>) -> bool {
    let [start, old_end, new_end] = points;
    if old_end < start || new_end < start || new_end.is_far() {
        return false;
    }
    patch.splice_old(start, old_end, new_end).err() == refusal
}

#[test]
fn old_text_drops_what_it_overlaps(rt: HostRuntime) {
    let rows = [BC, ([0, 6, 0, 8], "gh", [0, 5, 0, 6], "Y")];
    let left = [([0, 9, 0, 11], "gh", [0, 9, 0, 10], "Y")];
    assert!(rt;
        moves_old(
            rt.alloc(),
            &rows,
            [at(0, 2), at(0, 4), at(0, 7)],
            None,
            &left
        )
    );
}

#[test]
fn old_text_joins_what_comes_to_touch(rt: HostRuntime) {
    let rows = [BC, ([0, 5, 0, 7], "fg", [0, 4, 0, 5], "Y")];
    let left = [([0, 1, 0, 5], "bcfg", [0, 1, 0, 3], "XY")];
    assert!(rt;
        moves_old(
            rt.alloc(),
            &rows,
            [at(0, 3), at(0, 5), at(0, 3)],
            None,
            &left
        )
    );
}

#[test]
fn old_text_pushes_too_far(rt: HostRuntime) {
    let last = MAX_COORD - 1;
    let rows = [([0, last, 0, last], "", [0, last, 0, MAX_COORD], "x")];
    let far = Some(PatchRefusal::TooFar);
    assert!(rt;
        moves_old(
            rt.alloc(),
            &rows,
            [at(0, 0), at(0, 0), at(0, 1)],
            far,
            &rows
        )
    );
}

#[test]
fn old_text_keeps_what_ends_at_its_start(rt: HostRuntime) {
    let rows = [BC, ([0, 4, 0, 6], "ef", [0, 3, 0, 4], "Y")];
    let left = [BC, ([0, 6, 0, 8], "ef", [0, 5, 0, 6], "Y")];
    assert!(rt;
        moves_old(
            rt.alloc(),
            &rows,
            [at(0, 3), at(0, 3), at(0, 5)],
            None,
            &left
        )
    );
    let rows = [([0, 2, 0, 2], "", [0, 2, 0, 3], "x")];
    assert!(rt;
        moves_old(
            rt.alloc(),
            &rows,
            [at(0, 2), at(0, 2), at(0, 4)],
            None,
            &rows
        )
    );
}

#[test]
fn old_text_moves_over_rows(rt: HostRuntime) {
    let left = [
        ([2, 0, 2, 2], "bc", [2, 0, 2, 1], "X"),
        ([2, 3, 2, 5], "ef", [2, 2, 4, 1], "\n\nY"),
    ];
    assert!(rt;
        moves_old(
            rt.alloc(),
            &[BC, EF],
            [at(0, 0), at(0, 1), at(2, 0)],
            None,
            &left
        )
    );
}

// The patch of stretches of a text, each as the extent that stays and the offsets of the two parts
// of the text that are taken out and put in.
fn laid(
    alloc: Global,
    text: &str,
    stretches: &[(Point, [usize; 4])],
) -> Option<Result<Patch, PatchRefusal>> {
    let units = units(alloc, text)?;
    laid_of(alloc, units.as_slice(), stretches)
}

fn laid_of(
    alloc: Global,
    text: &[u16],
    stretches: &[(Point, [usize; 4])],
) -> Option<Result<Patch, PatchRefusal>> {
    let mut list = Vec::new(alloc);
    for (kept, ends) in stretches {
        list.push(Stretch {
            kept: *kept,
            old_text: text.get(ends[0]..ends[1]).unwrap_or(&[]),
            new_text: text.get(ends[2]..ends[3]).unwrap_or(&[]),
        })
        .ok()?;
    }
    Some(Patch::from_stretches(alloc, list.as_slice()))
}

// Whether the stretches of `abcd` are laid to these changes.
fn lays(alloc: Global, stretches: &[(Point, [usize; 4])], rows: &[Row]) -> bool {
    match laid(alloc, "abcd", stretches) {
        Some(Ok(patch)) => has_changes(alloc, &patch, rows),
        _ => false,
    }
}

// Whether they reach too far.
fn lays_too_far(alloc: Global, stretches: &[(Point, [usize; 4])]) -> bool {
    matches!(
        laid(alloc, "abcd", stretches),
        Some(Err(PatchRefusal::TooFar))
    )
}

#[test]
fn stretches_join_and_vanish(rt: HostRuntime) {
    let stretches = [
        (at(0, 1), [0, 2, 0, 0]),
        (at(0, 0), [0, 0, 2, 4]),
        (at(0, 3), [0, 0, 0, 0]),
        (at(1, 2), [0, 0, 1, 2]),
    ];
    let rows = [
        ([0, 1, 0, 3], "ab", [0, 1, 0, 3], "cd"),
        ([1, 2, 1, 2], "", [1, 2, 1, 3], "b"),
    ];
    assert!(rt; lays(rt.alloc(), &stretches, &rows));
}

#[test]
fn stretches_reach_too_far(rt: HostRuntime) {
    let last = at(0, u32::MAX);
    let near = [
        (last, [0, 0, 0, 0]),
        (last, [0, 0, 0, 0]),
        (at(1, 1), [0, 0, 0, 1]),
    ];
    let rows = [([1, 1, 1, 1], "", [1, 1, 1, 2], "a")];
    assert!(rt; lays(rt.alloc(), &near, &rows));
    let far = [
        (last, [0, 0, 0, 0]),
        (last, [0, 0, 0, 0]),
        (at(1, 1), [0, 0, 0, 1]),
        (at(0, MAX_COORD), [0, 0, 0, 1]),
    ];
    assert!(rt; lays_too_far(rt.alloc(), &far));
}

// Puts units in at the start of the new text, which every patch can take.
fn insert_at_start(patch: &mut Patch, inserted: &[u16]) -> Option<PatchRefusal> {
    laws::some_text_fits(patch);
    patch
        .splice(Point { row: 0, column: 0 }, &[], inserted)
        .err()
}

// Whether an insertion leads to these changes, and one row more is too far and leaves them.
fn pushes_too_far(alloc: Global, patch: &mut Patch, both: &[Row]) -> bool {
    insert_at_start(patch, &[97, 10]).is_none()
        && has_changes(alloc, patch, both)
        && insert_at_start(patch, &[10]) == Some(PatchRefusal::TooFar)
        && has_changes(alloc, patch, both)
}

#[test]
fn insertion_pushes_too_far(rt: HostRuntime) -> Result<(), Fail> {
    let (row, last) = (MAX_COORD - 1, MAX_COORD);
    let one = [([row, 5, row, 6], "b", [row, 5, row, 5], "")];
    let mut patch = patch_of(rt.alloc(), &one).ok_or("no patch")?;
    let both = [
        ([0, 0, 0, 0], "", [0, 0, 1, 0], "a\n"),
        ([row, 5, row, 6], "b", [last, 5, last, 5], ""),
    ];
    assert!(rt; pushes_too_far(rt.alloc(), &mut patch, &both));
    Ok(())
}
