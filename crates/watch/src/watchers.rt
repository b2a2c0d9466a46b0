//! The watchers that are attached to a text.
ghost use Rattle.std.specs.Prelude.{◌≡◌, ◌+◌, ◌-◌, ◌<◌, ◌≤◌, ◌^◌, ◌↔◌, ◌⊎◌, true, false, [], length, remove, MatchOption, IsErr, IfErr, OnOk, OnErr};
ghost use Rattle.watch.specs.Log.{log_of};
ghost use Rattle.watch.specs.Seats.{HasHeard, Holds, AreSeats, WasTold, Follows, AllFollow, Inserts, is_below, is_there, slot_of, RisesFrom, count_below, Stands, is_of};

use crate::refusal::{WatchBack, WatchUnknown};
use crate::seat::Seat;
use crate::watcher::Watcher;
use arrayvec::ArrayVec;
use patch::Change;
use points::MAX_WATCHERS;

/// The watchers that are attached, in rising order of ids.
#[derive(Drop)]
pub struct Watchers<W> {
    /// The places taken so far. Each holds a watcher.
    pub seats: ArrayVec<Option<Seat<W>>, MAX_WATCHERS>,
    /// How many changes were told.
    pub told: u64,
}

impl<W: Watcher> Watchers<W> {
    /// None.
    pub fn new() -> Watchers<W>
        ensures seats { result.seats.items ≡ [] }
        ensures told { result.told ≡ 0 }
        ensures stands { Stands (HasHeard W.count_of W.list_of) result.told result.seats.items }
    {
        Watchers {
            seats: ArrayVec::new(),
            told: 0,
        }
    }

    /// Attaches a watcher under an id. It was told nothing yet. Where that can't be, the watcher comes back.
    pub fn attach(&mut self, id: u32, watcher: Box<W>) -> Result<(), WatchBack<W>>
        requires few { W.count_of watcher.value ≤ 2 ^ 63 }
        requires stands { Stands (HasHeard W.count_of W.list_of) self.old.told self.old.seats.items }
        ensures taken { (result ≡ Err (WatchBack.WatchTaken watcher)) ↔ (is_there id self.old.seats.items ≡ true) }
        ensures full { (result ≡ Err (WatchBack.WatchFull watcher)) ↔ ((is_there id self.old.seats.items ≡ false) × (length self.old.seats.items ≡ MAX_WATCHERS)) }
        ensures back { IfErr result (λ back. (back ≡ WatchBack.WatchTaken watcher) ⊎ (back ≡ WatchBack.WatchFull watcher)) }
        ensures few { OnOk result (length self.old.seats.items < MAX_WATCHERS) }
        ensures err { OnErr result (self.new.seats.items ≡ self.old.seats.items) }
        ensures ok { OnOk result (Inserts (λ s. (s.id ≡ id) × (s.told ≡ 0) × (s.watcher ≡ watcher) × (s.opened.value ≡ watcher) × (log_of s.log ≡ []))
            (count_below id self.old.seats.items) self.old.seats.items self.new.seats.items) }
        ensures count { self.new.told ≡ self.old.told }
        ensures stands { Stands (HasHeard W.count_of W.list_of) self.new.told self.new.seats.items }
    {
        let at = place_of(self.seats.as_slice(), id);
        if is_there(self.seats.as_slice(), at, id) {
            return Err(WatchBack::WatchTaken(watcher));
        }
        if self.seats.len() == MAX_WATCHERS {
            return Err(WatchBack::WatchFull(watcher));
        }
        self.seats.insert(at, Some(Seat::new(id, watcher)));
        Ok(())
    }

    /// Takes a watcher off. It comes back with the number of changes that it was told.
    pub fn detach(&mut self, id: u32) -> Result<(Box<W>, u64), WatchUnknown>
        requires stands { Stands (HasHeard W.count_of W.list_of) self.old.told self.old.seats.items }
        ensures unknown { IsErr result ↔ (is_there id self.old.seats.items ≡ false) }
        ensures answer { MatchOption (slot_of id self.old.seats.items) (IsErr result) (λ s. result ≡ Ok (s.watcher, s.told)) }
        ensures err { OnErr result (self.new.seats.items ≡ self.old.seats.items) }
        ensures ok { OnOk result (self.new.seats.items ≡ remove self.old.seats.items (count_below id self.old.seats.items)) }
        ensures count { self.new.told ≡ self.old.told }
        ensures stands { Stands (HasHeard W.count_of W.list_of) self.new.told self.new.seats.items }
    {
        let at = place_of(self.seats.as_slice(), id);
        if !is_there(self.seats.as_slice(), at, id) {
            return Err(WatchUnknown);
        }
        parted(self.seats.remove(at))
    }

    /// Tells each watcher a change, in rising order of ids.
    pub fn tell(&mut self, change: &Change)
        requires few { self.old.told < 2 ^ 63 - 1 }
        requires stands { Stands (HasHeard W.count_of W.list_of) self.old.told self.old.seats.items }
        ensures told { AllFollow (WasTold change.now) self.old.seats.items self.new.seats.items }
        ensures count { self.new.told ≡ self.old.told + 1 }
        ensures stands { Stands (HasHeard W.count_of W.list_of) self.new.told self.new.seats.items }
    {
        tell_slots(self.seats.as_mut_slice(), change);
        self.told += 1;
    }
}

// Tells each a change, in turn.
fn tell_slots<W: Watcher>(slots: &mut [Option<Seat<W>>], change: &Change)
    requires few { AreSeats (λ s. s.told < 2 ^ 63 - 1) slots.old }
    requires kept { AreSeats (HasHeard W.count_of W.list_of) slots.old }
    ensures told { AllFollow (WasTold change.now) slots.old slots.new }
    ensures kept { AreSeats (HasHeard W.count_of W.list_of) slots.new }
{
    for slot in slots.iter_mut() {
        tell_slot(slot, change);
    }
}

// Tells the one in a slot a change.
fn tell_slot<W: Watcher>(slot: &mut Option<Seat<W>>, change: &Change)
    requires few { Holds (λ s. s.told < 2 ^ 63 - 1) slot.old }
    requires kept { Holds (HasHeard W.count_of W.list_of) slot.old }
    ensures told { Follows (WasTold change.now) slot.old slot.new }
    ensures kept { Holds (HasHeard W.count_of W.list_of) slot.new }
{
    if let Some(seat) = slot {
        seat.tell(change);
    }
}

// The watcher of the seat in a slot, and how many changes it was told.
fn parted<W: Watcher>(slot: Option<Seat<W>>) -> Result<(Box<W>, u64), WatchUnknown>
    ensures { MatchOption slot (IsErr result) (λ s. result ≡ Ok (s.watcher, s.told)) }
{
    let Some(seat) = slot else {
        return Err(WatchUnknown);
    };
    let Seat {
        id: _,
        told,
        watcher,
        opened: _,
        log: _,
    } = seat;
    Ok((watcher, told))
}

// How many of the seats have a lower id.
fn place_of<W: Watcher>(seats: &[Option<Seat<W>>], id: u32) -> usize
    ensures { result ≡ count_below id seats.now }
{
    for (at, slot) in seats.iter().enumerate() {
        if !is_lower(slot, id) {
            return at;
        }
    }
    seats.len()
}

// Whether a slot's seat has a lower id.
fn is_lower<W: Watcher>(slot: &Option<Seat<W>>, id: u32) -> bool
    ensures { result ≡ is_below id slot.now }
{
    match slot {
        Some(seat) => seat.id < id,
        None => false,
    }
}

// Whether the seat of an id is there. Its place is known.
fn is_there<W: Watcher>(seats: &[Option<Seat<W>>], at: usize, id: u32) -> bool
    requires place { at ≡ count_below id seats.now }
    requires order { RisesFrom 0 seats.now }
    ensures { result ≡ is_there id seats.now }
{
    at < seats.len() && is_seat(&seats[at], id)
}

// Whether a slot holds the seat of an id.
fn is_seat<W: Watcher>(slot: &Option<Seat<W>>, id: u32) -> bool
    ensures { result ≡ is_of id slot.now }
{
    match slot {
        Some(seat) => seat.id == id,
        None => false,
    }
}
