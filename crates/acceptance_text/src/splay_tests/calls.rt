//! Calls of a tree behind tests of what each of them asks for. None says what it does, so that no test carries more
//! facts than it has calls.
ghost use Rattle.std.specs.Prelude.{◌≡◌, slice_get, Some};
ghost use Rattle.splay.specs.Items.{load};

use splay::{Measure, Seek, Splay, Steps};
use std::alloc::Global;
use std::sync::ledger::Ledger;

// What the item at a place weighs.
fn weight_at<M: Measure, V>(tree: &Splay<M, V>, at: usize) -> u64
    ensures { (y : M × V) → slice_get tree.now.items at ≡ Some y → result ≡ M.weight y.0 }
{
    match tree.get(at) {
        Some((measure, _)) => measure.weight(),
        None => 0,
    }
}

// The weights of all items together.
fn load_of<M: Measure, V>(tree: &Splay<M, V>) -> u64
    ensures { result ≡ load M.weight tree.now.items }
{
    let mut sum = 0u64;
    for at in 0..tree.len() {
        sum += weight_at(tree, at);
    }
    sum
}

/// Inserts an item, where the call's conditions hold.
pub fn put<M: Measure, V: Drop, L: Ledger>(
    tree: &mut Splay<M, V>,
    at: usize,
    measure: M,
    value: V,
    steps: &mut Steps<L>,
) -> bool {
    let len = tree.len();
    let load = load_of(tree);
    let weight = measure.weight();
    if at <= len && len < 1 << 24 && weight <= (1 << 62) - load {
        tree.insert_at(at, measure, value, steps).is_ok()
    } else {
        false
    }
}

/// Takes an item out, where there is one.
pub fn take_at<M: Measure, V, L: Ledger>(
    tree: &mut Splay<M, V>,
    at: usize,
    steps: &mut Steps<L>,
) -> Option<(M, V)> {
    if at < tree.len() {
        Some(tree.remove_at(at, steps))
    } else {
        None
    }
}

/// The sum before a place, where there is that place.
pub fn sum_to<M: Measure, V>(tree: &Splay<M, V>, at: usize) -> Option<M> {
    if at <= tree.len() {
        Some(tree.sum_before(at))
    } else {
        None
    }
}

/// Whether a search finds that so many leading sums pass.
pub fn finds<M: Measure, V, S: Seek<M>, L: Ledger>(
    tree: &mut Splay<M, V>,
    seek: &S,
    want: usize,
    steps: &mut Steps<L>,
) -> bool {
    tree.find(seek, steps) == want
}

/// Both parts of a tree, where the place is in it.
pub fn parted<M: Measure, V: Drop, L: Ledger>(
    tree: Splay<M, V>,
    alloc: Global,
    at: usize,
    steps: &mut Steps<L>,
) -> Option<(Splay<M, V>, Splay<M, V>)> {
    if at <= tree.len() {
        tree.cut(alloc, at, steps).ok()
    } else {
        None
    }
}

/// Two trees as one, where they are small enough.
pub fn rejoined<M: Measure, V: Drop, L: Ledger>(
    first: Splay<M, V>,
    second: Splay<M, V>,
    steps: &mut Steps<L>,
) -> Option<Splay<M, V>> {
    let load = load_of(&first);
    if first.len() < 2000 && second.len() < 2000 && load_of(&second) <= (1 << 62) - load {
        first.join(second, steps).ok()
    } else {
        None
    }
}

/// Whether the tree has these values in order.
pub fn shows<M: Measure>(tree: &Splay<M, u32>, values: &[u32]) -> bool {
    let mut at = 0;
    for (_, value) in tree.iter() {
        if at >= values.len() || *value != values[at] {
            return false;
        }
        at += 1;
    }
    at == values.len()
}
