//! A watcher that is attached, with what it was told since.
ghost use Rattle.std.specs.Prelude.{◌≡◌, ◌+◌, ◌-◌, ◌<◌, ◌≤◌, ◌^◌, [], ◌∷◌, ◌++◌};
ghost use Rattle.watch.specs.Heard.{heard_of};
ghost use Rattle.watch.specs.Log.{log_of};
ghost use Rattle.watch.specs.Seats.{HasHeard};

use crate::watcher::{Heard, Watcher};
use patch::Change;
use std::snapshot::Snapshot;

/// What was told since a watcher was attached, for clauses alone: only the last is stored.
#[derive(Drop)]
#[cycle(log)]
pub enum Log {
    Nothing,
    Told(Heard, Snapshot<Log>),
}

/// An attached watcher.
#[derive(Drop)]
pub struct Seat<W> {
    pub id: u32,
    /// How many changes it was told.
    pub told: u64,
    pub watcher: Box<W>,
    /// What it was when it was attached.
    pub opened: Snapshot<Box<W>>,
    /// What it was told since.
    pub log: Log,
}

impl<W: Watcher> Seat<W> {
    /// A watcher that was told nothing yet.
    pub fn new(id: u32, watcher: Box<W>) -> Seat<W>
        requires { W.count_of watcher.value ≤ 2 ^ 63 }
        ensures id { result.id ≡ id }
        ensures told { result.told ≡ 0 }
        ensures watcher { result.watcher ≡ watcher }
        ensures opened { result.opened.value ≡ watcher }
        ensures log { log_of result.log ≡ [] }
        ensures kept { HasHeard W.count_of W.list_of result }
    {
        let opened = Snapshot::of(&watcher);
        Seat {
            id,
            told: 0,
            watcher,
            opened,
            log: Log::Nothing,
        }
    }

    /// Tells it a change.
    pub fn tell(&mut self, change: &Change)
        requires told { self.old.told < 2 ^ 63 - 1 }
        requires kept { HasHeard W.count_of W.list_of self.old }
        ensures id { self.new.id ≡ self.old.id }
        ensures told { self.new.told ≡ self.old.told + 1 }
        ensures opened { self.new.opened ≡ self.old.opened }
        ensures log { log_of self.new.log ≡ log_of self.old.log ++ heard_of change.now ∷ [] }
        ensures kept { HasHeard W.count_of W.list_of self.new }
    {
        let before = Snapshot::of(&self.log);
        self.log = Log::Told(
            Heard {
                start: change.old_range.start,
                old_end: change.old_range.end,
                new_end: change.new_range.end,
            },
            before,
        );
        self.told += 1;
        self.watcher.changed(change);
    }
}
