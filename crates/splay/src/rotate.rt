//! Rotations, and the way of a node to the root by pairs of them.
ghost use Rattle.std.specs.Prelude.{◌≡◌, ◌≢◌, ℕ, ◌+◌, ◌≤◌, Some, None, IsTrue, true, false, List};
ghost use Rattle.splay.specs.Tree.{Tree};
ghost use Rattle.splay.specs.Nodes.{link_at};
ghost use Rattle.splay.specs.Places.{IsNode, Stands, LiftsLeft, LiftsRight, Rises, RisesToTop, IsTop};

use crate::measure::Measure;
use crate::parts::tally_between;
use crate::steps::Steps;
use crate::store::{Link, Store};
use std::sync::ledger::Ledger;

// Lifts the node at `x` above its parent, whose left child it is.
fn lift_left<M: Measure, V, L: Ledger>(
    store: &mut Store<M, V>,
    x: u32,
    low: Link<M>,
    high: Link<M>,
    steps: &mut Steps<L>,
)
    requires node { IsNode M.unit M.add M.weight store.old x }
    requires low { link_at store.old x ≡ Some low }
    requires high { link_at store.old low.parent ≡ Some high }
    requires side { high.left ≡ x }
    ensures { LiftsLeft M.unit M.add M.weight store.old store.new x }
{
    let y = low.parent;
    let moved = store.tally(low.right, steps);
    let beside = store.tally(high.right, steps);
    let below = tally_between(moved, &high.own, beside);
    store.set_parent(low.right, y);
    store.put(
        y,
        Link {
            parent: x,
            left: low.right,
            right: high.right,
            own: high.own,
            tally: below,
        },
    );
    store.put(
        x,
        Link {
            parent: high.parent,
            left: low.left,
            right: y,
            own: low.own,
            tally: high.tally,
        },
    );
    store.set_child(high.parent, y, x, steps);
}

// Lifts the node at `x` above its parent, whose right child it is.
fn lift_right<M: Measure, V, L: Ledger>(
    store: &mut Store<M, V>,
    x: u32,
    low: Link<M>,
    high: Link<M>,
    steps: &mut Steps<L>,
)
    requires node { IsNode M.unit M.add M.weight store.old x }
    requires low { link_at store.old x ≡ Some low }
    requires high { link_at store.old low.parent ≡ Some high }
    requires side { high.left ≢ x }
    ensures { LiftsRight M.unit M.add M.weight store.old store.new x }
{
    let y = low.parent;
    let beside = store.tally(high.left, steps);
    let moved = store.tally(low.left, steps);
    let below = tally_between(beside, &high.own, moved);
    store.set_parent(low.left, y);
    store.put(
        y,
        Link {
            parent: x,
            left: high.left,
            right: low.left,
            own: high.own,
            tally: below,
        },
    );
    store.put(
        x,
        Link {
            parent: high.parent,
            left: y,
            right: low.right,
            own: low.own,
            tally: high.tally,
        },
    );
    store.set_child(high.parent, y, x, steps);
}

// Lifts the node at `x` above its parent, if it has one.
fn lift<M: Measure, V, L: Ledger>(store: &mut Store<M, V>, x: u32, steps: &mut Steps<L>)
    requires { IsNode M.unit M.add M.weight store.old x }
    ensures left { LiftsLeft M.unit M.add M.weight store.old store.new x }
    ensures right { LiftsRight M.unit M.add M.weight store.old store.new x }
{
    let Some(low) = store.find(x, steps) else {
        return
    };
    let Some(high) = store.find(low.parent, steps) else {
        return
    };
    if high.left == x {
        lift_left(store, x, low, high, steps);
    } else {
        lift_right(store, x, low, high, steps);
    }
}

// Takes the node at `x` up by two levels, or by one below the root. False where it is the root.
fn climb<M: Measure, V, L: Ledger>(store: &mut Store<M, V>, x: u32, steps: &mut Steps<L>) -> bool
    requires { IsNode M.unit M.add M.weight store.old x }
    ensures rises { result ≡ true → Rises M.unit M.add M.weight store.old store.new x }
    ensures stays { result ≡ false → store.new ≡ store.old }
    ensures top { result ≡ false → IsTop M.unit M.add M.weight store.old x }
{
    let Some(low) = store.find(x, steps) else {
        return false
    };
    let y = low.parent;
    let Some(middle) = store.find(y, steps) else {
        return false
    };
    let Some(high) = store.find(middle.parent, steps) else {
        lift(store, x, steps);
        return true;
    };
    if (middle.left == x) == (high.left == y) {
        lift(store, y, steps);
    } else {
        lift(store, x, steps);
    }
    lift(store, x, steps);
    true
}

/// Makes the node at `x` the root, by zig-zig and zig-zag steps and at most one zig.
pub(crate) fn splay<M: Measure, V, L: Ledger>(store: &mut Store<M, V>, x: u32, steps: &mut Steps<L>)
    requires { IsNode M.unit M.add M.weight store.old x }
    ensures { RisesToTop M.unit M.add M.weight store.old store.new x }
{
    for _level in 0..store.len() {
        if !climb(store, x, steps) {
            break;
        }
    }
}
