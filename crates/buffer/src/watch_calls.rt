//! Watchers attached and taken off.
ghost use Rattle.std.specs.Prelude.{◌≡◌, ◌<◌, ◌≤◌, ◌^◌};
ghost use Rattle.machine.specs.Machine.{watch, unwatch};
ghost use Rattle.watch.specs.Seats.{HasHeard};
ghost use Rattle.buffer.specs.Seen.{Hears, answered, state_of};

use crate::buffer::Buffer;
use machine::{CallRefusal, Reply};
use points::LAST;
use watch::{WatchBack, Watcher};

impl<W: Watcher> Buffer<W> {
    /// Attaches a watcher, which hears of each change from then on. Where that is refused, it comes back.
    pub fn watch(&mut self, id: u32, watcher: Box<W>) -> (Reply, Option<Box<W>>)
        requires count { self.old.count < LAST }
        requires few { W.count_of watcher.value ≤ 2 ^ 63 }
        requires told { self.old.followers.watchers.told ≤ self.old.count }
        requires stands { Hears (HasHeard W.count_of W.list_of) self.old }
        ensures ok { (state_of self.new, result.0) ≡ answered (state_of self.old) (watch id) }
        ensures told { self.new.followers.watchers.told ≤ self.new.count }
        ensures stands { Hears (HasHeard W.count_of W.list_of) self.new }
    {
        match self.followers.watchers.attach(id, watcher) {
            Ok(()) => (self.done(), None),
            Err(WatchBack::WatchTaken(watcher)) => {
                (self.refused(CallRefusal::WatchTaken), Some(watcher))
            }
            Err(WatchBack::WatchFull(watcher)) => {
                (self.refused(CallRefusal::WatchFull), Some(watcher))
            }
        }
    }

    /// Takes a watcher off, and tells how many changes it heard. It comes back.
    pub fn unwatch(&mut self, id: u32) -> (Reply, Option<Box<W>>)
        requires count { self.old.count < LAST }
        requires told { self.old.followers.watchers.told ≤ self.old.count }
        requires stands { Hears (HasHeard W.count_of W.list_of) self.old }
        ensures ok { (state_of self.new, result.0) ≡ answered (state_of self.old) (unwatch id) }
        ensures told { self.new.followers.watchers.told ≤ self.new.count }
        ensures stands { Hears (HasHeard W.count_of W.list_of) self.new }
    {
        match self.followers.watchers.detach(id) {
            Ok((watcher, heard)) => {
                let reply = Reply::Heard {
                    at: self.numbered(),
                    heard,
                };
                (reply, Some(watcher))
            }
            Err(_) => (self.refused(CallRefusal::WatchUnknown), None),
        }
    }
}
