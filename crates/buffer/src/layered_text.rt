//! The buffer's text. It stands in layers, so that an edit costs what it changes and not what the text has.
ghost use Rattle.std.specs.Prelude.{◌≡◌, ◌+◌, ◌-◌, ◌<◌, ◌≤◌, length, slice_range, string_bytes, unwrap_or, IfOk, OnOk, OnErr};
ghost use Rattle.points.specs.Text.{replaced, text_of};
ghost use Rattle.points.specs.Place.{point_at, clip, offset_of, clipped_offset};
ghost use Rattle.points.specs.MarkText.{IsPointOf};
ghost use Rattle.points.specs.declared.limits.TheConstants.{MAX_UNITS};
ghost use Rattle.places.specs.Placed.{free_of, top_id};
ghost use Rattle.chains.specs.Spots.{spot_in};
ghost use Rattle.chains.specs.Layered.{whole_text};
ghost use Rattle.layers.specs.Shelf.{top_layers, top_text};
ghost use Rattle.layers.specs.Building.{AreSpots};

use chains::Spot;
use layers::{NewLayer, Reader, Shelf, places_are_sound};
use line_text::{LineText, TextRefusal};
use points::{MAX_UNITS, NoMemory, Point, Range, Units};
use std::alloc::Global;
use std::marker::Model;

/// A text in layers on a shelf. Hands hold on to older states, which readers show. Contracts see its units.
#[derive(Drop)]
pub struct LayeredText {
    alloc: Global,
    // After each call a place is free for the layer of the next.
    shelf: Shelf,
}

impl Model for LayeredText {
    ghost use Rattle.std.specs.Prelude.{ℕ, ◌<◌, List};
    ghost use Rattle.places.specs.Placed.{free_of};
    ghost use Rattle.layers.specs.Shelf.{top_text};

    ghost Value = { List ℕ };

    ghost view = { λ t. top_text t.shelf };

    ghost invariant = { λ t. 0 < free_of t.shelf };
}

impl LayeredText {
    /// This text as a base.
    pub fn of(alloc: Global, text: LineText) -> Result<Self, NoMemory>
        ensures { IfOk result (λ made. made ≡ text) }
    {
        let shelf = Shelf::new(alloc, text, 0)?;
        Ok(LayeredText { alloc, shelf })
    }

    /// How many units there are, at most [`MAX_UNITS`].
    pub fn len(&self) -> usize
        ensures value { result ≡ length self.now }
        ensures short { result ≤ MAX_UNITS }
    {
        self.shelf.look().len()
    }

    /// The point at an offset.
    pub fn point_at(&self, offset: usize) -> Point
        requires { offset ≤ length self.now }
        ensures { result ≡ point_at self.now offset }
    {
        self.shelf.look().point_at(offset)
    }

    /// The place at an offset.
    pub fn spot_at(&self, offset: usize) -> Spot
        requires { offset ≤ length self.now }
        ensures { result ≡ spot_in self.now offset }
    {
        self.shelf.look().spot_at(offset)
    }

    /// The place of a point that the text has.
    pub fn spot_of(&self, point: Point) -> Spot
        requires { IsPointOf self.now point }
        ensures value { result ≡ spot_in self.now (unwrap_or (offset_of self.now point) 0) }
        ensures within { result.offset ≤ length self.now }
    {
        self.shelf.look().spot_of(point)
    }

    /// The point that a point is clipped to: outside line endings and surrogate pairs, and not past the end.
    pub fn clip(&self, point: Point) -> Point
        ensures { result ≡ clip self.now point }
    {
        self.shelf.look().clip(point)
    }

    /// The places of the clipped ends of a range.
    pub fn spots(&self, range: Range) -> (Spot, Spot)
        ensures from { result.0 ≡ spot_in self.now (clipped_offset self.now range.start) }
        ensures to { result.1 ≡ spot_in self.now (clipped_offset self.now range.end) }
        ensures order { result.0.offset ≤ result.1.offset }
        ensures within { result.1.offset ≤ length self.now }
    {
        self.shelf.look().span(range)
    }

    /// The units from one offset up to another, copied.
    pub fn units(&self, from: usize, to: usize) -> Result<Units, NoMemory>
        requires order { from ≤ to }
        requires within { to ≤ length self.now }
        ensures { IfOk result (λ units. units ≡ slice_range self.now from to) }
    {
        let mut units = Units::new(self.alloc);
        self.shelf.look().units(self.alloc, from, to, &mut units)?;
        Ok(units)
    }

    /// The text, with U+FFFD in place of each surrogate that lacks its partner.
    pub fn to_text(&self) -> Result<String, NoMemory>
        ensures { IfOk result (λ text. string_bytes text ≡ text_of self.now) }
    {
        self.shelf.look().to_text(self.alloc)
    }

    /// Replaces the units between two places of the text.
    pub fn put(&mut self, start: Spot, end: Spot, new: &Units) -> Result<(), NoMemory>
        requires places { AreSpots self.old start end }
        requires fits { length self.old + length new.now ≤ MAX_UNITS + (end.offset - start.offset) }
        ensures ok { OnOk result (self.new ≡ replaced self.old start.offset end.offset new.now) }
        ensures err { OnErr result (self.new ≡ self.old) }
    {
        let layer = changed(&self.shelf, start, end, new)?;
        put_on_top(&mut self.shelf, layer);
        Ok(())
    }

    /// A reader of the text as it is, which shares its layers.
    pub fn reader(&self) -> Result<Reader, NoMemory>
        ensures { IfOk result (λ reader. reader.text ≡ self.now) }
    {
        places_are_sound(&self.shelf);
        self.shelf.reader(self.shelf.top())
    }

    /// A hand holds on to the newest layer.
    pub fn hold(&mut self, hand: u32)
        requires { hand < 32 }
        ensures { self.new ≡ self.old }
    {
        places_are_sound(&self.shelf);
        self.shelf.note(self.shelf.top(), 1 << hand);
    }

    /// A hand lets go of all layers but the newest. What nobody needs then is freed by the next change.
    pub fn let_go(&mut self, hand: u32)
        ensures { self.new ≡ self.old }
    {
        self.shelf.quiet(hand);
    }

    /// Puts all layers above the base together, where there is more than one. The text stays.
    pub fn squash(&mut self) -> Result<(), NoMemory>
        ensures { self.new ≡ self.old }
    {
        if let Some(layer) = self.shelf.build_squash()? {
            put_on_top(&mut self.shelf, layer);
        }
        Ok(())
    }
}

// The layer that a replacement gives. Nobody asks for the version of a layer yet, so each has 0.
fn changed(shelf: &Shelf, start: Spot, end: Spot, new: &Units) -> Result<NewLayer, NoMemory>
    requires places { AreSpots (top_text shelf.now) start end }
    requires fits { length (top_text shelf.now) + length new.now ≤ MAX_UNITS + (end.offset - start.offset) }
    ensures on { IfOk result (λ layer. layer.on ≡ top_id shelf.now) }
    ensures text { IfOk result (λ layer. whole_text layer.layers ≡ replaced (top_text shelf.now) start.offset end.offset new.now) }
{
    let put = text_of(new)?;
    match shelf.build_between(0, start, end, &put) {
        Ok(layer) => Ok(layer),
        Err(TextRefusal::TooLong) => unreachable!(),
        Err(TextRefusal::NoMemory) => Err(NoMemory),
    }
}

// The text of these units.
fn text_of(units: &Units) -> Result<LineText, NoMemory>
    requires { length units.now ≤ MAX_UNITS }
    ensures { IfOk result (λ text. text ≡ units.now) }
{
    match LineText::from_units(units.try_clone()?) {
        Ok(text) => Ok(text),
        Err(TextRefusal::TooLong) => unreachable!(),
        Err(TextRefusal::NoMemory) => Err(NoMemory),
    }
}

// Installs a layer that was built on the top, and frees what nobody needs.
fn put_on_top(shelf: &mut Shelf, layer: NewLayer)
    requires still { layer.on ≡ top_id shelf.old }
    requires room { 0 < free_of shelf.old }
    ensures top { top_layers shelf.new ≡ layer.layers }
    ensures room { 0 < free_of shelf.new }
{
    shelf.install(layer);
    places_are_sound(shelf);
    shelf.narrow();
    shelf.collect();
}
