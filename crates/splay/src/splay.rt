//! The tree itself: its nodes, its root, and the chain of its spare nodes. docs/tree.md tells of them.
ghost use Rattle.std.specs.Prelude.{◌≡◌, ℕ, []};

use crate::measure::Measure;
use crate::store::{NIL, Store};
use std::alloc::Global;
use std::marker::Model;

/// A list of measured values in a tree that splays at each call that changes or searches it.
#[derive(Drop)]
pub struct Splay<M: Measure, V> {
    pub(crate) store: Store<M, V>,
    pub(crate) root: u32,
    // the first of the spare nodes, each of which names the next
    pub(crate) free: u32,
    pub(crate) spare: usize,
}

impl<M: Measure, V> Model for Splay<M, V> {
    ghost use Rattle.splay.specs.Items.{Items, items_code};

    ghost Value = { Items M V };

    ghost coded = { items_code M.code V.code };

    ghost use Rattle.splay.specs.Splay.{items_of, IsSound};

    ghost view = { λ s. record { items = items_of s.store s.root; spare = s.spare } };

    ghost invariant = { λ s. IsSound M.unit M.add M.weight s.store s.root s.free s.spare };
}

impl<M: Measure, V> Splay<M, V> {
    /// No items, over the allocator that later insertions take memory from. It takes none itself.
    pub fn new(alloc: Global) -> Self
        ensures items { result.items ≡ [] }
        ensures spare { result.spare ≡ 0 }
    {
        Splay {
            store: Store::new(alloc),
            root: NIL,
            free: NIL,
            spare: 0,
        }
    }

    /// How many nodes are left of items that were removed. So many insertions take no memory.
    pub fn spare(&self) -> usize
        ensures { result ≡ self.now.spare }
    {
        self.spare
    }
}
