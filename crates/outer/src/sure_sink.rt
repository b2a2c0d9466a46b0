//! A sink in memory that never fails: a caller of the trait is proved to answer no fault over it.
ghost use Rattle.std.specs.Prelude.{◌≡◌, [], length, Some, option_map, IsOk, IfOk};
ghost use Rattle.std.specs.Option.{option_copied};
ghost use Rattle.outer.specs.Memory.{within_room};

use crate::failed::Failed;
use crate::sink::Sink;
use crate::store::Store;
use points::NoMemory;
use std::alloc::Global;
use std::marker::Model;

/// A sink into memory that never fails: its count of faults is always 0.
///
/// It tells its bytes while at most its room of them were put. Once more were put it keeps and tells
/// nothing more. The memory is taken at the start, and no call takes more.
#[derive(Debug, Drop)]
pub struct SureSink {
    store: Store,
    /// No put was past the room.
    whole: bool,
}

impl Model for SureSink {
    ghost use Rattle.std.specs.Prelude.{if◌then◌else◌, Some, None};
    ghost use Rattle.outer.specs.Memory.{RoomySink};

    ghost Value = { RoomySink };

    ghost view = { λ s. record { taken = (if s.whole then Some s.store.taken else None); room = s.store.room } };
}

impl SureSink {
    /// A sink with no bytes, which tells at most `room` of them.
    pub fn new(alloc: Global, room: usize) -> Result<Self, NoMemory>
        ensures { IfOk result (λ s. s ≡ record { taken = Some []; room = room }) }
    {
        Ok(SureSink {
            store: Store::new(alloc, room)?,
            whole: true,
        })
    }

    /// The bytes that it took, while it tells them.
    pub fn bytes(&self) -> Option<&[u8]>
        ensures { option_copied result ≡ self.now.taken }
    {
        if self.whole {
            Some(self.store.as_slice())
        } else {
            None
        }
    }

    /// The bytes that it took, over the same memory, if it tells them.
    pub(crate) fn into_bytes(self) -> Option<Vec<u8>>
        ensures { option_map (λ bytes. bytes.items) result ≡ self.taken }
    {
        let SureSink { store, whole } = self;
        if whole {
            Some(store.into_bytes())
        } else {
            None
        }
    }
}

impl Sink for SureSink {
    ghost taken = { λ s. s.taken };

    ghost faults = { λ _. 0 };

    fn put(&mut self, bytes: &[u8]) -> Result<(), Failed>
        ensures ok { IsOk result }
        ensures taken { self.new.taken ≡ within_room self.old.room self.old.taken bytes.now }
        ensures room { self.new.room ≡ self.old.room }
    {
        if self.whole && !self.store.append(bytes) {
            self.whole = false;
            self.store.clear();
        }
        Ok(())
    }

    fn flush(&mut self) -> Result<(), Failed>
        ensures ok { IsOk result }
        ensures same { self.new ≡ self.old }
    {
        Ok(())
    }
}
