//! Random calls on a tree and on a plain list, at any measure that is drawn at random and added up without a tree.
ghost use Rattle.std.specs.Prelude.{◌≡◌, ◌<◌};

use super::calls::{finds, parted, put, rejoined, shows, sum_to, take_at};
use super::measures::{Below, Count, NewBefore, Sides};
use points::Distance;
use splay::{Measure, Seek, Splay, Steps};
use std::alloc::Global;
use std::mem;
use std::sync::ledger::{Blank, Ledger};

/// A measure that the tests draw at random and add up without a tree.
pub trait Drawn: Measure + PartialEq {
    type Limit: Seek<Self> + Drop;

    /// The measure of a value's item.
    fn of(value: u32) -> Self;

    /// A test that some sums pass.
    fn limit(random: u32) -> Self::Limit;

    /// The sum of the measures of these values.
    fn sum_of(values: &[u32]) -> Self;
}

impl Drawn for Count {
    type Limit = Below;

    fn of(value: u32) -> Self {
        Count(u64::from(value % 5))
    }

    fn limit(random: u32) -> Below {
        Below(u64::from(random % 600))
    }

    fn sum_of(values: &[u32]) -> Self {
        let mut sum = 0u64;
        for value in values {
            sum = sum.saturating_add(u64::from(*value % 5));
        }
        Count(sum)
    }
}

// One side of a value's item: a few rows, or none, and a few columns.
fn drawn_distance(value: u32) -> Distance {
    Distance {
        rows: u64::from(value % 3),
        columns: u64::from(value / 3 % 5),
    }
}

// Rows add up. The columns are those behind the last value that reaches over rows, and its own.
fn distance_sum(values: &[u32], divisor: u32) -> Distance {
    let mut rows = 0u64;
    let mut columns = 0u64;
    for value in values {
        let one = drawn_distance(value.checked_div(divisor).unwrap_or(0));
        rows = rows.saturating_add(one.rows);
        if one.rows > 0 {
            columns = 0;
        }
        columns = columns.saturating_add(one.columns);
    }
    Distance { rows, columns }
}

impl Drawn for Sides<Distance> {
    type Limit = NewBefore;

    fn of(value: u32) -> Self {
        Sides {
            old: drawn_distance(value),
            new: drawn_distance(value / 15),
        }
    }

    fn limit(random: u32) -> NewBefore {
        NewBefore(Distance {
            rows: u64::from(random / 8 % 300),
            columns: u64::from(random % 8),
        })
    }

    fn sum_of(values: &[u32]) -> Self {
        Sides {
            old: distance_sum(values, 1),
            new: distance_sum(values, 15),
        }
    }
}

/// How many of a thousand random calls on a tree and on a plain list agree before the first that doesn't, and leave
/// the same items.
pub fn agrees<M: Drawn, L: Ledger>(alloc: Global, blank: Blank) -> usize
    requires name { blank.name ≡ L.name }
    requires parts { blank.parts ≡ L.parts }
    requires some { 0 < blank.parts }
{
    let mut steps = Steps::<L>::new(blank);
    let mut tree: Splay<M, u32> = Splay::new(alloc);
    let mut plain: Vec<u32> = Vec::new(alloc);
    let mut state = 7;
    for i in 0..1000 {
        if !same_step(&mut tree, &mut plain, alloc, &mut state, &mut steps)
            || !holds(&tree, plain.as_slice())
        {
            return i;
        }
    }
    1000
}

fn next(state: &mut u32) -> u32 {
    *state = state.wrapping_mul(1664525).wrapping_add(1013904223);
    *state / 65536
}

// Whether a tree has these values' items, one by one and in a run.
fn holds<M: Drawn>(tree: &Splay<M, u32>, plain: &[u32]) -> bool {
    shows(tree, plain) && holds_each(tree, plain)
}

fn holds_each<M: Drawn>(tree: &Splay<M, u32>, plain: &[u32]) -> bool {
    for at in 0..plain.len() {
        if !has_item(tree, at, plain[at]) {
            return false;
        }
    }
    tree.len() == plain.len()
}

// Whether a tree has this value's item at a place.
fn has_item<M: Drawn>(tree: &Splay<M, u32>, at: usize, value: u32) -> bool {
    match tree.get(at) {
        Some((measure, own)) => *measure == M::of(value) && *own == value,
        None => false,
    }
}

// One random call on a tree and on a plain list, and whether they agree.
fn same_step<M: Drawn, L: Ledger>(
    tree: &mut Splay<M, u32>,
    plain: &mut Vec<u32>,
    alloc: Global,
    state: &mut u32,
    steps: &mut Steps<L>,
) -> bool {
    let kind = next(state) % 8;
    let at = next(state) as usize;
    let value = next(state);
    if kind < 4 {
        same_insertion(tree, plain, at, value, steps)
    } else if kind < 6 {
        same_removal(tree, plain, at, steps)
    } else if kind == 6 {
        same_sums(tree, plain.as_slice(), at, value, steps)
    } else {
        same_parts(tree, plain.as_slice(), alloc, at, steps)
    }
}

fn same_insertion<M: Drawn, L: Ledger>(
    tree: &mut Splay<M, u32>,
    plain: &mut Vec<u32>,
    at: usize,
    value: u32,
    steps: &mut Steps<L>,
) -> bool {
    let at = at % plain.len().saturating_add(1);
    plain.insert(at, value).is_ok() && put(tree, at, M::of(value), value, steps)
}

fn same_removal<M: Drawn, L: Ledger>(
    tree: &mut Splay<M, u32>,
    plain: &mut Vec<u32>,
    at: usize,
    steps: &mut Steps<L>,
) -> bool {
    let len = plain.len();
    if len == 0 {
        return take_at(tree, at, steps).is_none();
    }
    let value = plain.remove(at % len);
    take_at(tree, at % len, steps) == Some((M::of(value), value))
}

// Compares a sum at a place and a search.
fn same_sums<M: Drawn, L: Ledger>(
    tree: &mut Splay<M, u32>,
    plain: &[u32],
    at: usize,
    random: u32,
    steps: &mut Steps<L>,
) -> bool {
    let at = at % plain.len().saturating_add(1);
    let limit = M::limit(random);
    let want = passing::<M>(plain, &limit);
    sum_to(tree, at) == Some(M::sum_of(&plain[..at])) && finds(tree, &limit, want, steps)
}

// How many leading sums pass.
fn passing<M: Drawn>(plain: &[u32], limit: &M::Limit) -> usize {
    for count in 0..plain.len() {
        if !limit.passes(&M::sum_of(&plain[..count + 1])) {
            return count;
        }
    }
    plain.len()
}

// Cuts a tree in two, compares both parts, and joins them again.
fn same_parts<M: Drawn, L: Ledger>(
    tree: &mut Splay<M, u32>,
    plain: &[u32],
    alloc: Global,
    at: usize,
    steps: &mut Steps<L>,
) -> bool {
    let at = at % plain.len().saturating_add(1);
    let whole = mem::replace(tree, Splay::new(alloc));
    let Some((before, after)) = parted(whole, alloc, at, steps) else {
        return false;
    };
    let same = holds(&before, &plain[..at]) && holds(&after, &plain[at..]);
    match rejoined(before, after, steps) {
        Some(joined) => {
            *tree = joined;
            same
        }
        None => false,
    }
}
