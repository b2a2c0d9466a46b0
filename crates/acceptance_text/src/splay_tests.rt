//! The tree at a count and at a pair of distances: small cases by hand, and random calls beside a plain list.
ghost use Rattle.std.specs.Prelude.{◌≡◌, ◌<◌};

mod calls;
mod measures;
mod random;

use calls::{finds, parted, put, rejoined, shows, sum_to, take_at};
use measures::{Below, Count, NewBefore, Sides};
use points::Distance;
use random::agrees;
use splay::{Splay, Steps};
use std::alloc::Global;
use std::marker::Brand;
use std::sync::ledger::{Blank, Ledger};

/// A tree of counts whose values tell which is which.
type Counts = Splay<Count, u32>;

/// A tree of distances on two sides.
type Changes = Splay<Sides<Distance>, u32>;

// Inserts items by their place and their count, which is their value too.
fn filled<L: Ledger>(tree: &mut Counts, items: &[(usize, u32)], steps: &mut Steps<L>) -> bool {
    for (at, value) in items {
        if !put(tree, *at, Count(u64::from(*value)), *value, steps) {
            return false;
        }
    }
    true
}

// Whether the count at a place and its value come out.
fn takes_count<L: Ledger>(tree: &mut Counts, at: usize, value: u32, steps: &mut Steps<L>) -> bool {
    take_at(tree, at, steps) == Some((Count(u64::from(value)), value))
}

// Whether a tree cut at a place has these parts, and is joined again to what it was.
fn parts_show<L: Ledger>(
    tree: Counts,
    alloc: Global,
    at: usize,
    values: &[u32],
    steps: &mut Steps<L>,
) -> bool {
    if at > values.len() {
        return false;
    }
    let Some((before, after)) = parted(tree, alloc, at, steps) else {
        return false;
    };
    if !shows(&before, &values[..at]) || !shows(&after, &values[at..]) {
        return false;
    }
    match rejoined(before, after, steps) {
        Some(whole) => shows(&whole, values),
        None => false,
    }
}

#[test]
fn keeps_the_order_of_insertions(rt: HostRuntime) {
    assert!(rt; counted::<Brand>(rt.alloc(), Blank::new(1)));
}

fn counted<L: Ledger>(alloc: Global, blank: Blank) -> bool
    requires name { blank.name ≡ L.name }
    requires parts { blank.parts ≡ L.parts }
    requires some { 0 < blank.parts }
{
    let mut steps = Steps::<L>::new(blank);
    let mut tree: Counts = Splay::new(alloc);
    filled(&mut tree, &[(0, 5), (1, 7), (1, 2)], &mut steps)
        && shows(&tree, &[5, 2, 7])
        && sum_to(&tree, 2) == Some(Count(7))
        && takes_count(&mut tree, 0, 5, &mut steps)
        && shows(&tree, &[2, 7])
        && tree.spare() == 1
        && parts_show(tree, alloc, 1, &[2, 7], &mut steps)
}

#[test]
fn cuts_and_joins_back(rt: HostRuntime) {
    assert!(rt; cut_and_joined::<Brand>(rt.alloc(), Blank::new(1)));
}

fn cut_and_joined<L: Ledger>(alloc: Global, blank: Blank) -> bool
    requires name { blank.name ≡ L.name }
    requires parts { blank.parts ≡ L.parts }
    requires some { 0 < blank.parts }
{
    let mut steps = Steps::<L>::new(blank);
    for at in 0..4 {
        let mut tree: Counts = Splay::new(alloc);
        if !filled(&mut tree, &[(0, 1), (1, 2), (2, 3)], &mut steps) {
            return false;
        }
        if !parts_show(tree, alloc, at, &[1, 2, 3], &mut steps) {
            return false;
        }
    }
    true
}

#[test]
fn finds_where_sums_stop_passing(rt: HostRuntime) {
    assert!(rt; found::<Brand>(rt.alloc(), Blank::new(1)));
}

fn found<L: Ledger>(alloc: Global, blank: Blank) -> bool
    requires name { blank.name ≡ L.name }
    requires parts { blank.parts ≡ L.parts }
    requires some { 0 < blank.parts }
{
    let mut steps = Steps::<L>::new(blank);
    let mut tree: Counts = Splay::new(alloc);
    if !finds(&mut tree, &Below(9), 0, &mut steps) {
        return false;
    }
    if !filled(&mut tree, &[(0, 5), (1, 4), (2, 5)], &mut steps) {
        return false;
    }
    for (limit, want) in [(5, 0), (6, 1), (9, 1), (10, 2), (15, 3), (1, 0)] {
        if !finds(&mut tree, &Below(limit), want, &mut steps) {
            return false;
        }
    }
    true
}

// The distances of both sides, each by its row and its column.
fn two_sides(old: (u64, u64), new: (u64, u64)) -> Sides<Distance> {
    Sides {
        old: Distance {
            rows: old.0,
            columns: old.1,
        },
        new: Distance {
            rows: new.0,
            columns: new.1,
        },
    }
}

// Three changes, of which the third stands between the others.
fn three_changes<L: Ledger>(tree: &mut Changes, steps: &mut Steps<L>) -> bool {
    put(tree, 0, two_sides((0, 3), (2, 1)), 0, steps)
        && put(tree, 1, two_sides((0, 4), (0, 6)), 1, steps)
        && put(tree, 1, two_sides((1, 2), (0, 5)), 2, steps)
        && shows(tree, &[0, 2, 1])
}

// Whether the sum before a place has these distances.
fn sum_is(tree: &Changes, at: usize, old: (u64, u64), new: (u64, u64)) -> bool {
    sum_to(tree, at) == Some(two_sides(old, new))
}

// Whether so many changes end before a point of the new side.
fn ends_before<L: Ledger>(
    tree: &mut Changes,
    row: u64,
    column: u64,
    want: usize,
    steps: &mut Steps<L>,
) -> bool {
    let seek = NewBefore(Distance {
        rows: row,
        columns: column,
    });
    finds(tree, &seek, want, steps)
}

// Whether the change between the others comes out.
fn takes_middle<L: Ledger>(tree: &mut Changes, steps: &mut Steps<L>) -> bool {
    take_at(tree, 1, steps) == Some((two_sides((1, 2), (0, 5)), 2))
}

#[test]
fn adds_up_rows_and_columns_on_two_sides(rt: HostRuntime) {
    assert!(rt; extended::<Brand>(rt.alloc(), Blank::new(1)));
}

fn extended<L: Ledger>(alloc: Global, blank: Blank) -> bool
    requires name { blank.name ≡ L.name }
    requires parts { blank.parts ≡ L.parts }
    requires some { 0 < blank.parts }
{
    let mut steps = Steps::<L>::new(blank);
    let mut tree: Changes = Splay::new(alloc);
    three_changes(&mut tree, &mut steps)
        && sum_is(&tree, 0, (0, 0), (0, 0))
        && sum_is(&tree, 1, (0, 3), (2, 1))
        && sum_is(&tree, 2, (1, 2), (2, 6))
        && sum_is(&tree, 3, (1, 6), (2, 12))
        && all_end_before(&mut tree, &mut steps)
        && takes_middle(&mut tree, &mut steps)
        && sum_is(&tree, 2, (0, 7), (2, 7))
}

fn all_end_before<L: Ledger>(tree: &mut Changes, steps: &mut Steps<L>) -> bool {
    for (row, column, want) in [
        (0, 9, 0),
        (2, 1, 0),
        (2, 2, 1),
        (2, 12, 2),
        (2, 13, 3),
        (3, 0, 3),
    ] {
        if !ends_before(tree, row, column, want, steps) {
            return false;
        }
    }
    true
}

#[test]
fn agrees_with_a_plain_list_by_counts(rt: HostRuntime) {
    assert_eq!(rt; agrees::<Count, Brand>(rt.alloc(), Blank::new(1)), 1000);
}

#[test]
fn agrees_with_a_plain_list_by_distances(rt: HostRuntime) {
    assert_eq!(rt;
        agrees::<Sides<Distance>, Brand>(rt.alloc(), Blank::new(1)),
        1000
    );
}
