//! The bytes that a source in memory has left.
ghost use Rattle.std.specs.Prelude.{◌≡◌, ◌++◌, length, min, take, drop};

use std::marker::Model;

/// Bytes that are given from their front on.
#[derive(Debug, Drop)]
pub(crate) struct Remaining {
    bytes: Vec<u8>,
    /// How many were given.
    given: usize,
}

impl Model for Remaining {
    ghost use Rattle.std.specs.Prelude.{ℕ, ◌≤◌, List, vec_len, drop};

    ghost Value = { List ℕ };

    ghost view = { λ r. drop r.given r.bytes.items };

    ghost invariant = { λ r. r.given ≤ vec_len r.bytes };
}

impl Remaining {
    /// All these bytes are left.
    pub(crate) fn new(bytes: Vec<u8>) -> Self
        ensures { result ≡ bytes.items }
    {
        Remaining { bytes, given: 0 }
    }

    /// Copies the next bytes to the front of `into`, as many as there are and fit.
    pub(crate) fn give(&mut self, into: &mut [u8]) -> usize
        ensures count { result ≡ min (length into.old) (length self.old) }
        ensures into { into.new ≡ take result self.old ++ drop result into.old }
        ensures left { self.new ≡ drop result self.old }
    {
        let left = &self.bytes[self.given..];
        let count = into.len().min(left.len());
        into[..count].copy_from_slice(&left[..count]);
        self.given += count;
        count
    }
}
