//! A tree cut in two. The items of the smaller part go into a new tree one by one: for k of them the cost is
//! that of k removals and k insertions.
ghost use Rattle.std.specs.Prelude.{◌≡◌, ℕ, ◌+◌, ◌-◌, ◌<◌, ◌≤◌, ◌/◌, ◌++◌, length, IfOk, IfErr};

use crate::measure::Measure;
use crate::pour::{pour_back, pour_front};
use crate::splay::Splay;
use crate::steps::Steps;
use std::alloc::Global;
use std::sync::ledger::Ledger;

impl<M: Measure, V: Drop> Splay<M, V> {
    /// Cuts the list before the item at `at`. The smaller part goes into a new tree over the allocator, and the
    /// larger part keeps all spare nodes. An error is want of memory: the tree comes back with the same items.
    pub fn cut<L: Ledger>(
        self,
        alloc: Global,
        at: usize,
        steps: &mut Steps<L>,
    ) -> Result<(Splay<M, V>, Splay<M, V>), Splay<M, V>>
        requires { at ≤ length self.items }
        ensures joined { IfOk result (λ p. p.0.items ++ p.1.items ≡ self.items) }
        ensures place { IfOk result (λ p. length p.0.items ≡ at) }
        ensures front { at ≤ length self.items / 2 → IfOk result (λ p. (p.0.spare ≡ 0) × (p.1.spare ≡ self.spare + at)) }
        ensures back { length self.items / 2 < at → IfOk result (λ p. (p.0.spare ≡ self.spare + (length self.items - at)) × (p.1.spare ≡ 0)) }
        ensures err { IfErr result (λ t. (t.items ≡ self.items) × (t.spare ≡ self.spare)) }
    {
        if at <= self.len() / 2 {
            cut_front(self, alloc, at, steps)
        } else {
            cut_back(self, alloc, at, steps)
        }
    }
}

// Takes the items before `at` out of a tree into a new one, or moves them back where memory is wanting.
fn cut_front<M: Measure, V: Drop, L: Ledger>(
    tree: Splay<M, V>,
    alloc: Global,
    at: usize,
    steps: &mut Steps<L>,
) -> Result<(Splay<M, V>, Splay<M, V>), Splay<M, V>>
    requires { at ≤ length tree.items }
    ensures joined { IfOk result (λ p. p.0.items ++ p.1.items ≡ tree.items) }
    ensures place { IfOk result (λ p. length p.0.items ≡ at) }
    ensures spare { IfOk result (λ p. (p.0.spare ≡ 0) × (p.1.spare ≡ tree.spare + at)) }
    ensures err { IfErr result (λ t. (t.items ≡ tree.items) × (t.spare ≡ tree.spare)) }
{
    let mut right = tree;
    let _bounds = right.len();
    let mut left = Splay::new(alloc);
    let moved = pour_front(&mut left, &mut right, at, steps);
    if moved == at {
        return Ok((left, right));
    }
    let _ = pour_back(&mut left, &mut right, moved, steps);
    Err(right)
}

// Takes the items from `at` on out of a tree into a new one, or moves them back where memory is wanting.
fn cut_back<M: Measure, V: Drop, L: Ledger>(
    tree: Splay<M, V>,
    alloc: Global,
    at: usize,
    steps: &mut Steps<L>,
) -> Result<(Splay<M, V>, Splay<M, V>), Splay<M, V>>
    requires { at ≤ length tree.items }
    ensures joined { IfOk result (λ p. p.0.items ++ p.1.items ≡ tree.items) }
    ensures place { IfOk result (λ p. length p.0.items ≡ at) }
    ensures spare { IfOk result (λ p. (p.0.spare ≡ tree.spare + (length tree.items - at)) × (p.1.spare ≡ 0)) }
    ensures err { IfErr result (λ t. (t.items ≡ tree.items) × (t.spare ≡ tree.spare)) }
{
    let mut left = tree;
    let count = left.len() - at;
    let mut right = Splay::new(alloc);
    let moved = pour_back(&mut left, &mut right, count, steps);
    if moved == count {
        return Ok((left, right));
    }
    let _ = pour_front(&mut left, &mut right, moved, steps);
    Err(left)
}
