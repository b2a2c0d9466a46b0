//! The bytes that a sink in memory took, up to a room that is taken at the start.
ghost use Rattle.std.specs.Prelude.{◌≡◌, ◌+◌, [], ◌++◌, length, nat_le, if◌then◌else◌, IfOk};

use points::NoMemory;
use std::alloc::Global;
use std::marker::Model;

/// Bytes up to a room, for which all memory is taken at the start.
#[derive(Debug, Drop)]
pub(crate) struct Store {
    bytes: Vec<u8>,
    room: usize,
}

impl Model for Store {
    ghost use Rattle.std.specs.Prelude.{◌≤◌, vec_len, vec_capacity};
    ghost use Rattle.outer.specs.Memory.{Stored};

    ghost Value = { Stored };

    ghost view = { λ s. record { taken = s.bytes.items; room = s.room } };

    ghost invariant = { λ s. (vec_len s.bytes ≤ s.room) × (s.room ≤ vec_capacity s.bytes) };
}

impl Store {
    /// No bytes yet, with memory for `room` of them.
    pub(crate) fn new(alloc: Global, room: usize) -> Result<Self, NoMemory>
        ensures { IfOk result (λ s. s ≡ record { taken = []; room = room }) }
    {
        Ok(Store {
            bytes: Vec::with_capacity(alloc, room)?,
            room,
        })
    }

    /// Appends these bytes if they fit, and tells whether they did. It takes no memory.
    pub(crate) fn append(&mut self, bytes: &[u8]) -> bool
        ensures fits { result ≡ nat_le (length self.old.taken + length bytes.now) self.old.room }
        ensures taken { self.new.taken ≡ (if result then self.old.taken ++ bytes.now else self.old.taken) }
        ensures room { self.new.room ≡ self.old.room }
    {
        if bytes.len() > self.room - self.bytes.len() {
            return false;
        }
        self.bytes.extend_from_slice(bytes).is_ok()
    }

    /// The bytes, lent.
    pub(crate) fn as_slice(&self) -> &[u8]
        ensures { result.now ≡ self.now.taken }
    {
        self.bytes.as_slice()
    }

    /// The bytes, over the same memory.
    pub(crate) fn into_bytes(self) -> Vec<u8>
        ensures { result.items ≡ self.taken }
    {
        let Store { bytes, room: _ } = self;
        bytes
    }

    /// Drops every byte.
    pub(crate) fn clear(&mut self)
        ensures taken { self.new.taken ≡ [] }
        ensures room { self.new.room ≡ self.old.room }
    {
        self.bytes.clear();
    }
}
