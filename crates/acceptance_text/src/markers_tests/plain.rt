//! Random changes of the first row, on an index and on a plain list of marks whose movement and hits are worked out
//! case by case.

use super::{add, at, splice_at, stand};
use markers::{Hits, MarkerIndex};
use std::alloc::Global;

/// A mark on the first row: its id, its columns, and whether it is exclusive.
#[derive(Clone, Copy)]
pub struct RowMark {
    pub id: u32,
    pub from: u32,
    pub to: u32,
    pub exclusive: bool,
}

/// A mark on the first row.
pub fn row(id: u32, from: u32, to: u32, exclusive: bool) -> RowMark {
    RowMark {
        id,
        from,
        to,
        exclusive,
    }
}

// Where a column of a mark goes with a change from one column to another by a text that ends at a
// third, worked out case by case.
fn plain_column(column: u32, is_start: bool, mark: RowMark, change: [u32; 3]) -> u32 {
    if column < change[0] {
        return column;
    }
    if column > change[1] {
        return change[2].saturating_add(column - change[1]);
    }
    if change[0] < change[1] {
        return if column == change[0] {
            column
        } else {
            change[2]
        };
    }
    match (mark.exclusive, mark.from == mark.to, is_start) {
        (false, _, true) => column,
        (false, _, false) => change[2],
        (true, true, _) => change[2],
        (true, false, true) => change[2],
        (true, false, false) => column,
    }
}

// Whether a change hits a mark: by touch, inside, overlap and surround in this order.
fn plain_hit(set: usize, mark: RowMark, change: [u32; 3]) -> bool {
    let (from, to) = (change[0], change[1]);
    match set {
        0 => from <= mark.to && mark.from <= to,
        1 => from < mark.to && mark.from < to,
        2 => (from < mark.from && mark.from < to) || (from < mark.to && mark.to < to),
        _ => from < mark.from && mark.to < to,
    }
}

// Whether the list has the ids of the marks that are hit.
fn has_hits(ids: &[u32], set: usize, rows: &[RowMark], change: [u32; 3]) -> bool {
    let mut seen = 0;
    for row in rows {
        if plain_hit(set, *row, change) {
            if seen >= ids.len() || ids[seen] != row.id {
                return false;
            }
            seen += 1;
        }
    }
    seen == ids.len()
}

fn have_hits(hits: &Hits, rows: &[RowMark], change: [u32; 3]) -> bool {
    has_hits(hits.touch.as_slice(), 0, rows, change)
        && has_hits(hits.inside.as_slice(), 1, rows, change)
        && has_hits(hits.overlap.as_slice(), 2, rows, change)
        && has_hits(hits.surround.as_slice(), 3, rows, change)
}

fn move_plain(rows: &mut [RowMark], change: [u32; 3]) {
    for row in rows {
        *row = RowMark {
            id: row.id,
            from: plain_column(row.from, true, *row, change),
            to: plain_column(row.to, false, *row, change),
            exclusive: row.exclusive,
        };
    }
}

// The next number of a row of numbers without a plan.
fn next(state: &mut u32) -> u32 {
    *state = state.wrapping_mul(1_664_525).wrapping_add(1_013_904_223);
    *state
}

// Marks with the ids 0 to 11.
fn some_rows(state: &mut u32) -> [RowMark; 12] {
    let mut rows = [row(0, 0, 0, false); 12];
    for id in 0..12 {
        let random = next(state);
        let from = (random >> 16) % 20;
        rows[id] = row(id as u32, from, from + (random >> 8) % 4, random >> 31 == 1);
    }
    rows
}

// Adds the marks of the rows, those with odd ids first.
fn filled_by_halves(index: &mut MarkerIndex, rows: &[RowMark]) -> bool {
    for odd in [1, 0] {
        for row in rows {
            if row.id % 2 == odd && !add(index, *row) {
                return false;
            }
        }
    }
    true
}

// One random change of both, and whether they agree.
fn same_change(index: &mut MarkerIndex, rows: &mut [RowMark], number: u32) -> bool {
    let from = (number >> 16) % 20;
    let old = (number >> 8) % 5;
    let new = (number >> 24) % 5;
    let change = [from, from + old, from + new];
    let Some(hits) = splice_at(index, at(0, from), at(0, old), at(0, new)) else {
        return false;
    };
    let same = have_hits(&hits, rows, change);
    move_plain(rows, change);
    same && stand(index, rows)
}

// Eight random changes of twelve random marks, and whether an index agrees.
fn same_round(alloc: Global, state: &mut u32) -> bool {
    let mut rows = some_rows(state);
    let mut index = MarkerIndex::new(alloc);
    if !filled_by_halves(&mut index, &rows) {
        return false;
    }
    for _turn in 0..8 {
        if !same_change(&mut index, &mut rows, next(state)) {
            return false;
        }
    }
    true
}

/// How many of forty rounds agree before the first that doesn't.
pub fn agrees(alloc: Global) -> u32 {
    let mut state = 7;
    for round in 0..40 {
        if !same_round(alloc, &mut state) {
            return round;
        }
    }
    40
}
