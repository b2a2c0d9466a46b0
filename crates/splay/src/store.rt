//! The nodes of a tree in one vector, and the one place where they are read and written. Where a node may be missing, at
//! `NIL` for one, a read answers nothing and a write does nothing.
ghost use Rattle.std.specs.Prelude.{◌≡◌, ℕ, ◌+◌, ◌≤◌, List, [], ◌∷◌, ◌++◌, length, Option, Some, None, slice_get, slice_set, option_map, OnOk, OnErr, IfErr, option_and_then, cond, eqb};
ghost use Rattle.splay.specs.Nodes.{with_node, item_at, link_at, tally_at, linked, moved_to, with_child, emptied};
ghost use Rattle.splay.specs.Sums.{count_in};
ghost use Rattle.splay.specs.declared.store.Node.{Node};

use crate::steps::Steps;
use std::alloc::Global;
use std::marker::Model;
use std::sync::ledger::Ledger;

/// The index that no node has.
pub(crate) const NIL: u32 = u32::MAX;

/// How many items a subtree has, and the sum of their measures in order.
#[derive(Clone, Copy)]
pub(crate) struct Tally<M> {
    pub count: u32,
    pub all: M,
}

/// What a node knows beside its value. A spare node has the next spare one as its right child.
#[derive(Clone, Copy)]
pub(crate) struct Link<M> {
    pub parent: u32,
    pub left: u32,
    pub right: u32,
    pub own: M,
    pub tally: Tally<M>,
}

/// One node, spare where it has no value.
#[derive(Drop)]
pub(crate) struct Node<M, V> {
    pub link: Link<M>,
    pub value: Option<V>,
}

/// Every node of a tree, each at the index that names it for good. Nodes are read here alone, and each reading ticks.
#[derive(Drop)]
pub(crate) struct Store<M, V> {
    nodes: Vec<Node<M, V>>,
}

impl<M, V> Model for Store<M, V> {
    ghost Value = { List (Node M V) };

    ghost view = { λ s. s.nodes.items };
}

impl<M: Copy, V> Store<M, V> {
    /// No nodes, over the allocator that later ones come from. It takes no memory itself.
    pub fn new(alloc: Global) -> Self
        ensures { result ≡ [] }
    {
        Store {
            nodes: Vec::new(alloc),
        }
    }

    /// How many nodes there are, spare ones among them.
    pub fn len(&self) -> usize
        ensures { result ≡ length self.now }
    {
        self.nodes.len()
    }

    /// The link of a node, and nothing at `NIL`.
    pub fn find<L: Ledger>(&self, at: u32, steps: &mut Steps<L>) -> Option<Link<M>>
        ensures { result ≡ link_at self.now at }
    {
        steps.tick();
        let at = at as usize;
        if at < self.nodes.len() {
            let node = &self.nodes[at];
            Some(node.link)
        } else {
            None
        }
    }

    /// The tally of the subtree at a node, and nothing at `NIL`.
    pub fn tally<L: Ledger>(&self, at: u32, steps: &mut Steps<L>) -> Option<Tally<M>>
        ensures { result ≡ tally_at self.now at }
    {
        match self.find(at, steps) {
            Some(link) => Some(link.tally),
            None => None,
        }
    }

    /// The measure and the value of a node that isn't spare.
    pub fn item<L: Ledger>(&self, at: u32, steps: &mut Steps<L>) -> Option<(&M, &V)>
        ensures { option_map (λ p. (p.0.now, p.1.now)) result ≡ item_at self.now at }
    {
        steps.tick();
        let at = at as usize;
        if at < self.nodes.len() {
            let node = &self.nodes[at];
            match &node.value {
                Some(value) => Some((&node.link.own, value)),
                None => None,
            }
        } else {
            None
        }
    }

    /// Writes what a node knows, but for its value.
    pub fn put(&mut self, at: u32, link: Link<M>)
        ensures { self.new ≡ with_node self.old at (linked link) }
    {
        let at = at as usize;
        if at < self.nodes.len() {
            let node = &mut self.nodes[at];
            node.link = link;
        }
    }

    /// Makes `parent` the parent of a node, and does nothing at `NIL`.
    pub fn set_parent(&mut self, at: u32, parent: u32)
        ensures { self.new ≡ with_node self.old at (moved_to parent) }
    {
        let at = at as usize;
        if at < self.nodes.len() {
            let node = &mut self.nodes[at];
            node.link.parent = parent;
        }
    }

    /// Puts the child `new` in the place of the child `old` of a node, and does nothing at `NIL`.
    pub fn set_child<L: Ledger>(&mut self, at: u32, old: u32, new: u32, steps: &mut Steps<L>)
        ensures { self.new ≡ with_node self.old at (with_child old new) }
    {
        steps.tick();
        let at = at as usize;
        if at < self.nodes.len() {
            let node = &mut self.nodes[at];
            if node.link.left == old {
                node.link.left = new;
            } else {
                node.link.right = new;
            }
        }
    }

    /// Adds a node with this value behind the others, or hands the value back for want of memory.
    pub fn push(&mut self, link: Link<M>, value: V) -> Result<(), V>
        ensures ok { OnOk result (self.new ≡ self.old ++ record { link = link; value = Some value } ∷ []) }
        ensures err { OnErr result (self.new ≡ self.old) }
        ensures back { IfErr result (λ v. v ≡ value) }
    {
        match self.nodes.reserve(1) {
            Ok(()) => {
                self.nodes.push_reserved(Node {
                    link,
                    value: Some(value),
                });
                Ok(())
            }
            Err(_) => Err(value),
        }
    }

    /// Takes a node's value out. The node is spare from then on, and `next` is the next spare one.
    pub fn empty(&mut self, at: u32, next: u32) -> Option<V>
        ensures nodes { self.new ≡ with_node self.old at (emptied next) }
        ensures value { result ≡ option_and_then (λ n. n.value) (slice_get self.old at) }
    {
        let at = at as usize;
        if at < self.nodes.len() {
            let node = &mut self.nodes[at];
            node.link.right = next;
            node.value.take()
        } else {
            None
        }
    }
}

impl<M: Copy, V: Drop> Store<M, V> {
    /// Gives a spare node a link and a value.
    pub fn fill(&mut self, at: u32, link: Link<M>, value: V)
        ensures { self.new ≡ slice_set self.old at (record { link = link; value = Some value }) }
    {
        let at = at as usize;
        if at < self.nodes.len() {
            let node = &mut self.nodes[at];
            node.link = link;
            node.value = Some(value);
        }
    }
}

/// How many items a subtree with this tally has.
pub(crate) fn count_of<M: Copy>(tally: Option<Tally<M>>) -> usize
    ensures { result ≡ count_in tally }
{
    match tally {
        Some(tally) => tally.count as usize,
        None => 0,
    }
}
