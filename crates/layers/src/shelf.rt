ghost use Rattle.std.specs.Prelude.{◌≡◌, ◌+◌, ◌<◌, ◌≤◌, ◌^◌, ◌↔◌, [], length, map, filter, IfOk, IsTrue, IsNone, IsSome};
ghost use Rattle.places.specs.Placed.{first, is_live, parent_of, top_id, free_of, noted, hand_mask, quieted, narrowed, is_kept, IsNarrow};
ghost use Rattle.places.specs.Table.{IsTable, IsLowestFree};
ghost use Rattle.chains.specs.Layered.{on_base, depth_of};
ghost use Rattle.layers.specs.Shelf.{HasDepths, held_at, layers_at, shown_at, top_held, top_layers, top_version, installed};

use crate::ground::ground_below;
use crate::new_layer::NewLayer;
use crate::reader::Reader;
use crate::versioned::Versioned;
use chains::Chain;
use line_text::LineText;
use places::{MAX_DEPTH, Table, places_are_sound as table_is_sound};
use points::NoMemory;
use std::alloc::Global;
use std::marker::Model;

/// Texts in layers at 272 places, numbered from 0. Contracts see what stands at each live place, oldest first.
#[derive(Drop)]
pub struct Shelf {
    pub(crate) alloc: Global,
    pub(crate) table: Table<Versioned>,
}

impl Model for Shelf {
    ghost use Rattle.layers.specs.Shelf.{Shelved, HasDepths};

    ghost Value = { Shelved };

    ghost view = { λ s. s.table };

    ghost invariant = { λ s. HasDepths s.table };
}

impl Shelf {
    /// A shelf with this text as a base at place 0, with no hand on it.
    pub fn new(alloc: Global, text: LineText, version: u64) -> Result<Self, NoMemory>
        ensures { IfOk result (λ shelf. shelf ≡ first (record { layers = on_base text []; version = version })) }
    {
        let layers = Chain::of(alloc, text)?;
        let table = Table::new(alloc, Versioned { layers, version })?;
        Ok(Shelf { alloc, table })
    }

    /// Whether the top is still the one that the layer was built on.
    pub fn still(&self, layer: &NewLayer) -> bool
        ensures { IsTrue result ↔ (layer.now.on ≡ top_id self.now) }
    {
        self.table.still(layer.on)
    }

    /// Puts a layer with no hand on it at the lowest free place, as the top, and answers the place. It takes no memory.
    pub fn install(&mut self, layer: NewLayer) -> u32
        requires still { layer.on ≡ top_id self.old }
        requires room { 0 < free_of self.old }
        ensures place { IsLowestFree self.old result }
        ensures installed { self.new ≡ installed self.old result layer }
    {
        table_is_sound(&self.table);
        let NewLayer {
            layers,
            version,
            ..
        } = layer;
        let top = self.table.top();
        let ground = ground_below(&self.table, Some(top), MAX_DEPTH, layers.depth());
        self.table.install(ground, Versioned { layers, version })
    }

    /// Puts hands on a live place, one bit each.
    pub fn note(&mut self, place: u32, mask: u64)
        requires live { IsTrue (is_live self.old place) }
        requires hands { mask < 2 ^ 32 }
        ensures { self.new ≡ map (noted place mask) self.old }
    {
        self.table.note(place, mask);
    }

    /// Takes a hand from all places but the top.
    pub fn quiet(&mut self, hand: u32)
        ensures { self.new ≡ quieted (hand_mask hand) self.old }
    {
        self.table.quiet(hand);
    }

    /// Leaves each hand at the newest place that has it, the top aside.
    pub fn narrow(&mut self)
        ensures list { self.new ≡ narrowed self.old }
        ensures narrow { IsNarrow self.new }
    {
        self.table.narrow();
    }

    /// Frees each place that is neither the top nor has a hand nor stands below such a place, and answers how many
    /// these were.
    pub fn collect(&mut self) -> u32
        ensures kept { self.new ≡ filter (is_kept self.old) self.old }
        ensures freed { result + length self.new ≡ length self.old }
        ensures room { IsNarrow self.old → 8 ≤ free_of self.new }
    {
        table_is_sound(&self.table);
        self.table.collect() as u32
    }

    /// How many places are free.
    pub fn free(&self) -> u32
        ensures { result ≡ free_of self.now }
    {
        self.table.free() as u32
    }

    /// The place of the top.
    pub fn top(&self) -> u32
        ensures { result ≡ (top_id self.now).place }
    {
        self.table.top()
    }

    /// The version of the top.
    pub fn version(&self) -> u64
        ensures { result ≡ top_version self.now }
    {
        self.newest().version
    }

    /// The top's layers, lent.
    pub fn look(&self) -> &Chain
        ensures { result.now ≡ top_layers self.now }
    {
        &self.newest().layers
    }

    /// Whether anything stands at a place.
    pub fn live(&self, place: u32) -> bool
        ensures { result ≡ is_live self.now place }
    {
        self.table.live(place)
    }

    /// The place on which the layer at a live place stands; a base stands on none.
    pub fn parent(&self, place: u32) -> Option<u32>
        requires { IsTrue (is_live self.now place) }
        ensures place { result ≡ parent_of self.now place }
        ensures base { IsNone result ↔ (depth_of (layers_at self.now place) ≡ 1) }
    {
        table_is_sound(&self.table);
        self.table.parent(place)
    }

    /// A reader of what stands at a live place. To share its layers once more can be refused.
    pub fn reader(&self, place: u32) -> Result<Reader, NoMemory>
        requires { IsTrue (is_live self.now place) }
        ensures { IfOk result (λ reader. reader ≡ shown_at self.now place) }
    {
        let placed = self.placed(place);
        Ok(Reader {
            alloc: self.alloc,
            layers: placed.layers.try_clone()?,
            version: placed.version,
        })
    }

    // What stands at the top's place.
    fn newest(&self) -> &Versioned
        ensures { result.now ≡ top_held self.now }
    {
        table_is_sound(&self.table);
        self.placed(self.table.top())
    }

    // What stands at a live place.
    fn placed(&self, place: u32) -> &Versioned
        requires { IsTrue (is_live self.now place) }
        ensures { result.now ≡ held_at self.now place }
    {
        match self.table.held(place) {
            Some(held) => held,
            None => unreachable!(),
        }
    }
}

/// What is true of every shelf: at least one place is taken and what was put in last is the top; each place stands on
/// nothing or on an older one that is live and one less deep, at most 8 deep; no two have one number or one age; and a
/// place is as deep as it has layers.
pub fn places_are_sound(shelf: &Shelf)
    ensures table { IsTable shelf.now }
    ensures depths { HasDepths shelf.now }
{
    table_is_sound(&shelf.table);
}
