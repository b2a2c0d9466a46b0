//! The watchers of a text: one list of all changes that were told, and for each watcher how long it was when that
//! watcher was attached.
ghost use Rattle.std.specs.Prelude.{◌≡◌, ◌==◌, [], not, nat_lt, length, map, Option, option_map, find, IfOk};
ghost use Rattle.std.specs.List.{filter};
ghost use Rattle.machine.specs.Machine.{heard_more, watcher_with, with_watcher};
ghost use Rattle.plain_replay.specs.Seats.{with_seat};

use points::{NoMemory, Splice};
use std::alloc::{AllocError, Global};
use std::marker::Model;

/// A watcher: its id, and how many changes had been told before it.
#[derive(Clone, Copy, Debug)]
struct Seat {
    id: u32,
    since: usize,
}

/// The watchers, which contracts see each with the list of what it heard.
#[derive(Debug, Drop)]
pub(crate) struct Watchers {
    seats: Vec<Seat>,
    told: Vec<Splice>,
}

impl Model for Watchers {
    ghost use Rattle.std.specs.Prelude.{List, map, length};
    ghost use Rattle.machine.specs.Machine.{Watching};

    ghost Value = { List Watching };

    ghost use Rattle.plain_replay.specs.Seats.{watching, AreSeats};

    ghost view = { λ w. map (watching w.told.items) w.seats.items };

    ghost invariant = { λ w. AreSeats (length w.told.items) w.seats.items };
}

impl Watchers {
    /// No watchers.
    pub(crate) fn new(alloc: Global) -> Self
        ensures { result ≡ [] }
    {
        Watchers {
            seats: Vec::new(alloc),
            told: Vec::new(alloc),
        }
    }

    /// How many there are.
    pub(crate) fn len(&self) -> usize
        ensures { result ≡ length self.now }
    {
        self.seats.len()
    }

    /// How many changes the watcher with this id was told.
    pub(crate) fn heard(&self, id: u32) -> Option<u64>
        ensures { result ≡ option_map (λ w. length w.heard) (watcher_with id self.now) }
    {
        match seat_with(self.seats.as_slice(), id) {
            Some(seat) => Some(self.told.len().saturating_sub(seat.since) as u64),
            None => None,
        }
    }

    /// The watchers with a new one.
    pub(crate) fn with(&self, alloc: Global, id: u32) -> Result<Self, NoMemory>
        ensures { IfOk result (λ w. w ≡ with_watcher id self.now) }
    {
        let since = self.told.len();
        let seats = with_seat(alloc, self.seats.as_slice(), Seat { id, since })?;
        let told = Vec::from_slice(alloc, self.told.as_slice())?;
        Ok(Watchers { seats, told })
    }

    /// The watchers without the one of this id.
    pub(crate) fn without(&self, alloc: Global, id: u32) -> Result<Self, NoMemory>
        ensures { IfOk result (λ w. w ≡ filter (λ v. not (v.id == id)) self.now) }
    {
        let seats = without_seat(alloc, self.seats.as_slice(), id)?;
        let told = Vec::from_slice(alloc, self.told.as_slice())?;
        Ok(Watchers { seats, told })
    }

    /// The watchers, told of one change more.
    pub(crate) fn told(&self, alloc: Global, change: Splice) -> Result<Self, NoMemory>
        ensures { IfOk result (λ w. w ≡ map (heard_more change) self.now) }
    {
        let seats = Vec::from_slice(alloc, self.seats.as_slice())?;
        let mut told = Vec::from_slice(alloc, self.told.as_slice())?;
        told.push(change)?;
        Ok(Watchers { seats, told })
    }

    /// The same watchers.
    pub(crate) fn copy(&self, alloc: Global) -> Result<Self, NoMemory>
        ensures { IfOk result (λ w. w ≡ self.now) }
    {
        let seats = Vec::from_slice(alloc, self.seats.as_slice())?;
        let told = Vec::from_slice(alloc, self.told.as_slice())?;
        Ok(Watchers { seats, told })
    }
}

// The seat of this id.
fn seat_with(seats: &[Seat], id: u32) -> Option<Seat>
    ensures { result ≡ find (λ s. s.id == id) seats.now }
{
    seats.iter().find(|seat| seat.id == id).copied()
}

// The seats with a new one, in rising order of ids.
fn with_seat(alloc: Global, seats: &[Seat], new: Seat) -> Result<Vec<Seat>, NoMemory>
    ensures { IfOk result (λ v. v.items ≡ with_seat new seats.now) }
{
    let mut all = below(alloc, seats, new.id)?;
    let above = above(alloc, seats, new.id)?;
    all.push(new)?;
    all.extend_from_slice(above.as_slice())?;
    Ok(all)
}

// The seats with lesser ids.
fn below(alloc: Global, seats: &[Seat], id: u32) -> Result<Vec<Seat>, AllocError>
    ensures { IfOk result (λ v. v.items ≡ filter (λ s. nat_lt s.id id) seats.now) }
{
    let lesser = seats.iter().copied().filter(|seat| seat.id < id);
    lesser.collect(alloc)
}

// The seats with greater ids.
fn above(alloc: Global, seats: &[Seat], id: u32) -> Result<Vec<Seat>, AllocError>
    ensures { IfOk result (λ v. v.items ≡ filter (λ s. nat_lt id s.id) seats.now) }
{
    let greater = seats.iter().copied().filter(|seat| id < seat.id);
    greater.collect(alloc)
}

// The seats without the one of this id.
fn without_seat(alloc: Global, seats: &[Seat], id: u32) -> Result<Vec<Seat>, AllocError>
    ensures { IfOk result (λ v. v.items ≡ filter (λ s. not (s.id == id)) seats.now) }
{
    let others = seats.iter().copied().filter(|seat| seat.id != id);
    others.collect(alloc)
}
