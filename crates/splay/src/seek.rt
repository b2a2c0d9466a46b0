//! Ways down the tree: to an item by its place, and to where a sum first fails a test.
ghost use Rattle.std.specs.Prelude.{◌≡◌, ◌≢◌, ℕ, ◌+◌, ◌≤◌, Some, None, true, false, List, length};
ghost use Rattle.splay.specs.Tree.{flat};
ghost use Rattle.splay.specs.Places.{IsTree, IsNodeAt, IsSumBefore, IsFound};

use crate::measure::{Measure, Seek};
use crate::parts::{behind, with};
use crate::steps::Steps;
use crate::store::{NIL, Store, count_of};
use std::sync::ledger::Ledger;

/// The index of the node whose item stands at `at` in the tree with this root.
pub(crate) fn node_at<M: Measure, V, L: Ledger>(
    store: &Store<M, V>,
    root: u32,
    at: usize,
    steps: &mut Steps<L>,
) -> u32
    ensures { IsNodeAt M.unit M.add M.weight store.now root at result }
{
    let mut here = root;
    let mut ahead = at;
    for _level in 0..store.len() {
        let Some(link) = store.find(here, steps) else {
            return here;
        };
        let left = count_of(store.tally(link.left, steps));
        if ahead < left {
            here = link.left;
        } else if ahead == left {
            return here;
        } else {
            ahead = ahead - left - 1;
            here = link.right;
        }
    }
    here
}

/// The sum of the items before `at` in the tree with this root, where there are any.
pub(crate) fn sum_before<M: Measure, V, L: Ledger>(
    store: &Store<M, V>,
    root: u32,
    at: usize,
    steps: &mut Steps<L>,
) -> Option<M>
    requires { (i : IsTree M.unit M.add M.weight store.now root) × (at ≤ length (flat i.tree)) }
    ensures { IsSumBefore M.unit M.add M.weight store.now root at result }
{
    let mut here = root;
    let mut ahead = at;
    let mut sum: Option<M> = None;
    for _level in 0..store.len() {
        let Some(link) = store.find(here, steps) else {
            return sum;
        };
        let left = store.tally(link.left, steps);
        let count = count_of(left);
        if ahead <= count {
            here = link.left;
        } else {
            sum = Some(with(behind(sum, left), &link.own));
            ahead = ahead - count - 1;
            here = link.right;
        }
    }
    sum
}

/// What a search found: how many leading sums pass, and the last node that it visited.
#[derive(Clone, Copy)]
pub(crate) struct Found {
    pub count: usize,
    pub last: u32,
}

/// Searches the tree with this root.
pub(crate) fn search<M: Measure, V, S: Seek<M>, L: Ledger>(
    store: &Store<M, V>,
    root: u32,
    seek: &S,
    steps: &mut Steps<L>,
) -> Found
    requires { IsTree M.unit M.add M.weight store.now root }
    ensures { IsFound M.unit M.add M.weight store.now root (S.passes seek.now) result.count result.last }
{
    let mut here = root;
    let mut last = NIL;
    let mut count = 0usize;
    let mut sum: Option<M> = None;
    for _level in 0..store.len() {
        let Some(link) = store.find(here, steps) else {
            return Found { count, last };
        };
        let left = store.tally(link.left, steps);
        let through = with(behind(sum, left), &link.own);
        last = here;
        if seek.passes(&through) {
            count = count + count_of(left) + 1;
            sum = Some(through);
            here = link.right;
        } else {
            here = link.left;
        }
    }
    Found { count, last }
}
