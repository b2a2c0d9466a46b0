ghost use Rattle.std.specs.Prelude.{◌≡◌, ◌+◌, ◌-◌, ◌<◌, ◌≤◌, ◌^◌, ◌↔◌, [], ◌∷◌, length, map, filter, option_map, option_copied, IfOk, IfSome, IsTrue, Some, None};
ghost use Rattle.places.specs.Placed.{first, placed_at, is_live, parent_of, depth_on, top_of, top_id, free_of, with_top, noted, hand_mask, quieted, narrowed, is_kept, IsNarrow};
ghost use Rattle.places.specs.Table.{IsTable, IsLowestFree};

use crate::hands::{add_hands, mask_of, narrow_hands, take_hands};
use crate::look::{deeper, find, lowest_free, newest};
use crate::marks::{is_marked, kept_places};
use crate::placed::{PLACES, Placed, TopId};
use points::NoMemory;
use std::alloc::Global;
use std::marker::Model;

/// A table of places, of which one at least is taken.
#[derive(Drop)]
pub struct Table<X> {
    // Oldest first. The room for all is taken at the beginning.
    entries: Vec<Placed<X>>,
}

impl<X> Model for Table<X> {
    ghost use Rattle.std.specs.Prelude.{◌≤◌, List, vec_capacity};
    ghost use Rattle.places.specs.declared.placed.Placed.{Placed};
    ghost use Rattle.places.specs.Table.{IsTable};

    ghost Value = { List (Placed X) };

    ghost view = { λ t. t.entries.items };

    ghost invariant = { λ t. IsTable t.entries.items × (272 ≤ vec_capacity t.entries) };
}

impl<X> Table<X> {
    /// A table with one thing in it, at place 0, on nothing and with no hand on it.
    pub fn new(alloc: Global, held: X) -> Result<Self, NoMemory>
    where
        X: Drop,
        ensures { IfOk result (λ t. t ≡ first held) }
    {
        let mut entries = Vec::with_capacity(alloc, PLACES)?;
        entries.push(Placed {
            place: 0,
            age: 0,
            parent: None,
            depth: 1,
            mask: 0,
            held,
        })?;
        Ok(Table { entries })
    }

    /// How many places are free.
    pub fn free(&self) -> usize
        ensures { result ≡ free_of self.now }
    {
        PLACES.saturating_sub(self.entries.len())
    }

    /// Whether anything stands at a place.
    pub fn live(&self, place: u32) -> bool
        ensures { result ≡ is_live self.now place }
    {
        find(&self.entries, place).is_some()
    }

    /// The place of the top.
    pub fn top(&self) -> u32
        ensures { result ≡ (top_id self.now).place }
    {
        newest(&self.entries).place
    }

    /// Which top this is.
    pub fn top_id(&self) -> TopId
        ensures { result ≡ top_id self.now }
    {
        newest(&self.entries)
    }

    /// Whether the top is still this one.
    pub fn still(&self, top: TopId) -> bool
        ensures { IsTrue result ↔ (top ≡ top_id self.now) }
    {
        newest(&self.entries) == top
    }

    /// The place that what stands at a place stands on.
    pub fn parent(&self, place: u32) -> Option<u32>
        ensures { result ≡ parent_of self.now place }
    {
        find(&self.entries, place)?.parent
    }

    /// How many places the chain of a place has.
    pub fn depth(&self, place: u32) -> Option<u32>
        ensures { result ≡ option_map (λ e. e.depth) (placed_at self.now place) }
    {
        Some(find(&self.entries, place)?.depth)
    }

    /// What is held at a place.
    pub fn held(&self, place: u32) -> Option<&X>
        ensures { option_copied result ≡ option_map (λ e. e.held) (placed_at self.now place) }
    {
        Some(&find(&self.entries, place)?.held)
    }

    /// The hands on a place, one bit each.
    pub fn mask(&self, place: u32) -> Option<u64>
        ensures { result ≡ option_map (λ e. e.mask) (placed_at self.now place) }
    {
        Some(find(&self.entries, place)?.mask)
    }

    /// Puts something in at the lowest free place, with no hand on it, and answers the place. It stands on `parent`, or
    /// on nothing, and is the top.
    pub fn install(&mut self, parent: Option<u32>, held: X) -> u32
    where
        X: Drop,
        requires room { 0 < free_of self.old }
        requires young { (top_id self.old).age < 2 ^ 64 - 1 }
        requires live { IfSome parent (λ p. IsTrue (is_live self.old p)) }
        requires shallow { depth_on self.old parent ≤ 8 }
        ensures place { IsLowestFree self.old result }
        ensures placed { self.new ≡ with_top self.old result parent held }
    {
        let place = lowest_free(&self.entries);
        let depth = deeper(&self.entries, parent);
        let age = newest(&self.entries).age + 1;
        let _ = self.entries.push(Placed {
            place,
            age,
            parent,
            depth,
            mask: 0,
            held,
        });
        place
    }

    /// Puts hands on a place, one bit each.
    pub fn note(&mut self, place: u32, hands: u64)
        requires { hands < 2 ^ 32 }
        ensures { self.new ≡ map (noted place hands) self.old }
    {
        add_hands(&mut self.entries, place, hands);
    }

    /// Takes a hand from all places but the top.
    pub fn quiet(&mut self, hand: u32)
        ensures { self.new ≡ quieted (hand_mask hand) self.old }
    {
        take_hands(&mut self.entries, mask_of(hand));
    }

    /// Leaves each hand at the newest place that has it, the top aside.
    pub fn narrow(&mut self)
        ensures list { self.new ≡ narrowed self.old }
        ensures narrow { IsNarrow self.new }
    {
        narrow_hands(&mut self.entries);
    }

    /// Frees each place that is neither the top nor has a hand nor stands below such a place, and answers how many
    /// these were.
    pub fn collect(&mut self) -> usize
    where
        X: Drop,
        ensures kept { self.new ≡ filter (is_kept self.old) self.old }
        ensures freed { result + length self.new ≡ length self.old }
        ensures room { IsNarrow self.old → 8 ≤ free_of self.new }
    {
        let before = self.entries.len();
        let kept = kept_places(&self.entries, newest(&self.entries).place);
        self.entries.retain(|entry| is_marked(&kept, entry.place));
        before - self.entries.len()
    }
}

/// What is true of every table: at least one place is taken and what was put in last is the top; each place stands on
/// nothing or on an older one that is live and one less deep; no two have one number or one age.
pub fn places_are_sound<X>(table: &Table<X>)
    ensures { IsTable table.now }
{
    let _ = &table.entries;
}
