//! The marks that a splice hits, by their ids.
ghost use Rattle.std.specs.Prelude.{◌≡◌, ℕ, List, [], length, IfOk};
ghost use Rattle.std.specs.Slice.Iter.{iter_rest};

use crate::memory::NoMemory;
use std::alloc::Global;
use std::marker::Model;
use std::slice;

/// A list of ids of marks, which contracts see as a list of numbers.
#[derive(Debug, Drop)]
pub struct Ids {
    items: Vec<u32>,
}

impl Model for Ids {
    ghost Value = { List ℕ };

    ghost view = { λ ids. ids.items.items };
}

impl Ids {
    /// The ids of a vector, over the same memory.
    pub fn from_vec(items: Vec<u32>) -> Self
        ensures { result ≡ items.items }
    {
        Ids { items }
    }

    /// How many ids there are.
    pub fn len(&self) -> usize
        ensures { result ≡ length self.now }
    {
        self.items.len()
    }

    /// The ids, lent.
    pub fn as_slice(&self) -> &[u32]
        ensures { result.now ≡ self.now }
    {
        self.items.as_slice()
    }

    /// The ids, one by one.
    pub fn iter(&self) -> slice::Iter<'_, u32>
        ensures { iter_rest result ≡ self.now }
    {
        self.items.iter()
    }

    /// The ids as a vector, over the same memory.
    pub fn into_vec(self) -> Vec<u32>
        ensures { result.items ≡ self }
    {
        let Ids { items } = self;
        items
    }
}

/// The ids of the marks that a splice hits, in each of the four senses and in rising order.
#[derive(Debug, Drop)]
pub struct Hits {
    /// Marks that have a point in common with the replaced text.
    pub touch: Ids,
    /// Marks that end behind its start and start before its end.
    pub inside: Ids,
    /// Marks with a boundary strictly within it.
    pub overlap: Ids,
    /// Marks that lie strictly within it.
    pub surround: Ids,
}
