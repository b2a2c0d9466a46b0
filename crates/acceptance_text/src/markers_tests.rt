//! Marks: the worked cases, each call once where it succeeds and where it refuses, and random changes beside a plain
//! list. Each call stands behind a helper that says nothing of what it does, so that the tests stay cheap to prove.
mod plain;

use markers::{Hits, MAX_MARKS, MarkUnknown, MarkerIndex, MarkerRefusal, laws};
use plain::{RowMark, agrees, row};
use points::{MarkOrder, Point, Range};
use std::alloc::Global;

fn at(row: u32, column: u32) -> Point {
    Point { row, column }
}

// The range of the first row between two columns in order.
fn columns(from: u32, to: u32) -> Range {
    range(at(0, from), at(0, to))
}

fn range(start: Point, end: Point) -> Range {
    if start <= end {
        Range::new(start, end)
    } else {
        Range::new(end, end)
    }
}

fn add(index: &mut MarkerIndex, row: RowMark) -> bool {
    index
        .insert(row.id, columns(row.from, row.to), row.exclusive)
        .is_ok()
}

fn filled(index: &mut MarkerIndex, rows: &[RowMark]) -> bool {
    for row in rows {
        if !add(index, *row) {
            return false;
        }
    }
    true
}

// Whether there is a mark of this id with this range and this flag.
fn is_at(index: &MarkerIndex, id: u32, wanted: Range, exclusive: bool) -> bool {
    match index.range_of(id) {
        Ok((range, flag)) => range == wanted && flag == exclusive,
        Err(_) => false,
    }
}

// Whether the marks of these ids stand there.
fn stand(index: &MarkerIndex, rows: &[RowMark]) -> bool {
    for row in rows {
        if !is_at(index, row.id, columns(row.from, row.to), row.exclusive) {
            return false;
        }
    }
    true
}

fn splice_at(
    index: &mut MarkerIndex,
    start: Point,
    old_extent: Point,
    new_extent: Point,
) -> Option<Hits> {
    if index.fits(start, old_extent, new_extent) {
        index.splice(start, old_extent, new_extent).ok()
    } else {
        None
    }
}

// Whether the change hits so many marks in the four senses.
fn counts_are(
    index: &mut MarkerIndex,
    start: Point,
    old_extent: Point,
    new_extent: Point,
    want: [u32; 4],
) -> bool {
    if !index.fits(start, old_extent, new_extent) {
        return false;
    }
    let counts = index.splice_counts(start, old_extent, new_extent);
    [counts.touch, counts.inside, counts.overlap, counts.surround] == want
}

// Whether these are the ids of the marks that a change touched, and it hit none in another sense.
fn only_touch(hits: Option<Hits>, ids: &[u32]) -> bool {
    match hits {
        Some(hits) => {
            hits.touch.as_slice() == ids
                && hits.inside.len() == 0
                && hits.overlap.len() == 0
                && hits.surround.len() == 0
        }
        None => false,
    }
}

#[test]
fn six_marks_around_an_insertion(rt: HostRuntime) {
    let before = [
        row(1, 2, 2, false),
        row(2, 2, 2, true),
        row(3, 2, 4, false),
        row(4, 2, 4, true),
        row(5, 0, 2, false),
        row(6, 0, 2, true),
    ];
    let after = [
        row(1, 2, 5, false),
        row(2, 5, 5, true),
        row(3, 2, 7, false),
        row(4, 5, 7, true),
        row(5, 0, 5, false),
        row(6, 0, 2, true),
    ];
    let mut index = MarkerIndex::new(rt.alloc());
    assert!(rt; filled(&mut index, &before));
    let hits = splice_at(&mut index, at(0, 2), at(0, 0), at(0, 3));
    assert!(rt; only_touch(hits, &[1, 2, 3, 4, 5, 6]));
    assert!(rt; stand(&index, &after));
}

// Whether a mark from column 4 to 6 goes there with a change of the units from one column on, so many of them for so
// many others, and is hit so.
fn moves_so(alloc: Global, change: [u32; 3], want: [u32; 2], sets: [u32; 4]) -> bool {
    let mut index = MarkerIndex::new(alloc);
    add(&mut index, row(1, 4, 6, false))
        && counts_are(
            &mut index,
            at(0, change[0]),
            at(0, change[1]),
            at(0, change[2]),
            sets,
        )
        && is_at(&index, 1, columns(want[0], want[1]), false)
}

#[test]
fn a_mark_beside_and_within_replaced_text(rt: HostRuntime) {
    // The replaced text and the units for it; where the mark from column 4 to 6 goes; its sets.
    let table = [
        ([1, 3, 1], [2, 4], [1, 0, 0, 0]),
        ([1, 7, 0], [1, 1], [1, 1, 1, 1]),
        ([5, 3, 0], [4, 5], [1, 1, 1, 0]),
        ([6, 0, 2], [4, 8], [1, 0, 0, 0]),
        ([5, 0, 2], [4, 8], [1, 1, 0, 0]),
        ([7, 2, 9], [4, 6], [0, 0, 0, 0]),
        ([4, 2, 5], [4, 9], [1, 1, 0, 0]),
        ([3, 4, 5], [8, 8], [1, 1, 1, 1]),
    ];
    for (change, want, sets) in table {
        assert!(rt;
            moves_so(rt.alloc(), change, want, sets),
            "at {}",
            change[0]
        );
    }
}

fn add_between(index: &mut MarkerIndex, id: u32, start: Point, end: Point) -> bool {
    index.insert(id, range(start, end), true).is_ok()
}

fn goes_to(index: &mut MarkerIndex, change: [Point; 3], start: Point, end: Point) -> bool {
    splice_at(index, change[0], change[1], change[2]).is_some()
        && is_at(index, 7, range(start, end), true)
}

#[test]
fn moves_over_rows(rt: HostRuntime) {
    let mut index = MarkerIndex::new(rt.alloc());
    assert!(rt; add_between(&mut index, 7, at(1, 2), at(3, 5)));
    // From column 1 of the first row to column 2 of the second, replaced by three units.
    assert!(rt;
        goes_to(
            &mut index,
            [at(0, 1), at(1, 2), at(0, 3)],
            at(0, 4),
            at(2, 5)
        )
    );
    // A row inserted before it.
    assert!(rt;
        goes_to(
            &mut index,
            [at(0, 1), at(0, 0), at(1, 0)],
            at(1, 3),
            at(3, 5)
        )
    );
}

fn refuses(index: &mut MarkerIndex, row: RowMark, why: MarkerRefusal) -> bool {
    index.insert(row.id, columns(row.from, row.to), row.exclusive) == Err(why)
}

fn removes(index: &mut MarkerIndex, id: u32) -> bool {
    index.remove(id).is_ok()
}

fn cannot_remove(index: &mut MarkerIndex, id: u32) -> bool {
    index.remove(id) == Err(MarkUnknown)
}

fn sets_exclusive(index: &mut MarkerIndex, id: u32) -> bool {
    index.set_exclusive(id, true).is_ok()
}

fn cannot_set(index: &mut MarkerIndex, id: u32) -> bool {
    index.set_exclusive(id, true) == Err(MarkUnknown)
}

fn is_unknown(index: &MarkerIndex, id: u32) -> bool {
    index.range_of(id).is_err()
}

fn cannot_compare(index: &MarkerIndex, a: u32, b: u32) -> bool {
    index.compare(a, b).is_err()
}

// Whether an index of these two marks refuses an id that is taken, and ids that aren't there.
fn refuses_ids(index: &mut MarkerIndex, rows: &[RowMark]) -> bool {
    refuses(index, row(9, 5, 6, true), MarkerRefusal::MarkTaken)
        && cannot_remove(index, 3)
        && cannot_set(index, 10)
        && is_unknown(index, 0)
        && cannot_compare(index, 2, 3)
        && cannot_compare(index, 3, 2)
        && stand(index, rows)
}

// Whether the first mark becomes exclusive, and the second goes.
fn changes_marks(index: &mut MarkerIndex) -> bool {
    sets_exclusive(index, 9)
        && removes(index, 2)
        && is_unknown(index, 2)
        && stand(index, &[row(9, 0, 3, true)])
        && index.len() == 1
}

#[test]
fn taken_and_unknown_ids(rt: HostRuntime) {
    let rows = [row(9, 0, 3, false), row(2, 1, 1, true)];
    let mut index = MarkerIndex::new(rt.alloc());
    assert!(rt; filled(&mut index, &rows));
    assert!(rt; refuses_ids(&mut index, &rows) && changes_marks(&mut index));
}

// Marks of one range with the ids from 0 on, up to the greatest number of marks.
fn all_filled(index: &mut MarkerIndex) -> bool {
    for id in 0..MAX_MARKS {
        if !add(index, row(id as u32, 2, 4, false)) {
            return false;
        }
    }
    true
}

// Whether so many marks start at column 2.
fn starting_there(index: &MarkerIndex, count: usize) -> bool {
    match index.find_starting_at(at(0, 2)) {
        Ok(ids) => ids.len() == count,
        Err(_) => false,
    }
}

// Whether a full index refuses one mark more, and tells first of an id that is taken.
fn is_full(index: &mut MarkerIndex) -> bool {
    refuses(index, row(1_000_000, 2, 4, false), MarkerRefusal::MarksFull)
        && refuses(index, row(999_999, 2, 4, false), MarkerRefusal::MarkTaken)
        && index.len() == MAX_MARKS
        && starting_there(index, MAX_MARKS)
}

// Whether a change hits all of them, and a mark has room again where one went.
fn has_room_again(index: &mut MarkerIndex) -> bool {
    let want = [1_000_000, 1_000_000, 0, 0];
    counts_are(index, at(0, 3), at(0, 0), at(0, 1), want)
        && removes(index, 17)
        && add(index, row(1_000_000, 2, 4, false))
}

#[test]
fn a_million_marks_and_one_more(rt: HostRuntime) {
    let mut index = MarkerIndex::new(rt.alloc());
    assert!(rt; all_filled(&mut index));
    assert!(rt; is_full(&mut index) && has_room_again(&mut index));
}

// A find: the ids of the marks that it answers.
fn found(index: &MarkerIndex, find: u32, range: Range) -> Option<Vec<u32>> {
    match find {
        0 => index.find_intersecting(range),
        1 => index.find_containing(range),
        2 => index.find_contained_in(range),
        3 => index.find_starting_in(range),
        4 => index.find_ending_in(range),
        5 => index.find_starting_at(range.start),
        _ => index.find_ending_at(range.start),
    }
    .ok()
}

fn finds(index: &MarkerIndex, find: u32, range: Range, ids: &[u32]) -> bool {
    match found(index, find, range) {
        Some(found) => found.as_slice() == ids,
        None => false,
    }
}

// Whether the finds of a range answer these marks.
fn finds_in_ranges(index: &MarkerIndex) -> bool {
    let range = columns(2, 4);
    finds(index, 0, range, &[1, 2, 3, 4])
        && finds(index, 0, columns(4, 4), &[2, 4])
        && finds(index, 1, range, &[2, 4])
        && finds(index, 2, range, &[2, 3])
        && finds(index, 3, range, &[2, 3])
        && finds(index, 4, range, &[1, 2, 3])
}

fn finds_at_points(index: &MarkerIndex) -> bool {
    finds(index, 5, columns(0, 0), &[1, 4])
        && finds(index, 6, columns(9, 9), &[4, 5])
        && finds(index, 6, range_at(1, 9), &[])
}

#[test]
fn finds_on_a_table_of_ranges(rt: HostRuntime) {
    let rows = [
        row(5, 5, 9, false),
        row(1, 0, 2, false),
        row(4, 0, 9, true),
        row(2, 2, 4, false),
        row(3, 3, 3, true),
    ];
    let mut index = MarkerIndex::new(rt.alloc());
    assert!(rt; filled(&mut index, &rows));
    assert!(rt; finds_in_ranges(&index) && finds_at_points(&index));
}

// The empty range at a point.
fn range_at(row: u32, column: u32) -> Range {
    range(at(row, column), at(row, column))
}

fn compares(index: &MarkerIndex, a: u32, b: u32, want: MarkOrder) -> bool {
    index.compare(a, b) == Ok(want)
}

fn compares_all(index: &MarkerIndex) -> bool {
    compares(index, 4, 2, MarkOrder::Before)
        && compares(index, 2, 1, MarkOrder::Before)
        && compares(index, 1, 2, MarkOrder::After)
        && compares(index, 1, 3, MarkOrder::Before)
        && compares(index, 3, 1, MarkOrder::After)
        && compares(index, 3, 3, MarkOrder::Same)
}

#[test]
fn compares_by_start_then_end_then_id(rt: HostRuntime) {
    let rows = [
        row(1, 1, 3, false),
        row(2, 1, 5, false),
        row(3, 1, 3, true),
        row(4, 0, 0, false),
    ];
    let mut index = MarkerIndex::new(rt.alloc());
    assert!(rt; filled(&mut index, &rows));
    assert!(rt; compares_all(&index));
}

fn last_is(index: &MarkerIndex, end: Option<Point>) -> bool {
    index.last() == end
}

#[test]
fn last_end_of_none_and_of_some(rt: HostRuntime) {
    let mut index = MarkerIndex::new(rt.alloc());
    assert!(rt; last_is(&index, None));
    let rows = [row(1, 0, 8, false), row(4, 2, 9, false), row(6, 3, 3, true)];
    assert!(rt; filled(&mut index, &rows));
    assert!(rt; last_is(&index, Some(at(0, 9))));
}

// Whether a change of the units from one column of the first row on fits.
fn fits(index: &MarkerIndex, from: u32, old: u32, new: u32) -> bool {
    index.fits(at(0, from), at(0, old), at(0, new))
}

#[test]
fn fits_up_to_the_greatest_coordinate(rt: HostRuntime) {
    let mut index = MarkerIndex::new(rt.alloc());
    assert!(rt; add(&mut index, row(1, 0, 1_073_741_820, false)));
    assert!(rt; fits(&index, 3, 0, 4));
    assert!(rt; !fits(&index, 3, 0, 5));
    assert!(rt; fits(&index, 3, 5, 9));
    laws::marks_keep_to_their_text(&index);
}

#[test]
fn agrees_with_a_plain_list(rt: HostRuntime) {
    assert_eq!(rt; agrees(rt.alloc()), 40);
}
