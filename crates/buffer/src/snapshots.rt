//! The snapshots of a session that are live.
ghost use Rattle.std.specs.Prelude.{◌≡◌, ◌+◌, ◌<◌, ◌≤◌, ◌∷◌, [], find, length, map, option_map, IfOk, OnOk, OnErr};
ghost use Rattle.buffer.specs.Reads.{has_number, without_first};
ghost use Rattle.buffer.specs.Live.{kept_of, place_in};

use crate::buffer::Buffer;
use crate::snapshot::Snapshot;
use points::NoMemory;
use std::alloc::Global;
use std::marker::Model;
use watch::Watcher;

/// A snapshot under a number.
#[derive(Drop)]
pub(crate) struct Live {
    number: u32,
    snapshot: Snapshot,
}

/// The live snapshots of a session, each under a number of the session's own. Contracts see their numbers and texts, the
/// last taken first.
#[derive(Drop)]
pub struct Snapshots {
    live: Vec<Live>,
}

impl Model for Snapshots {
    ghost use Rattle.std.specs.Prelude.{List, map};
    ghost use Rattle.machine.specs.Plain.{Kept};
    ghost use Rattle.buffer.specs.Live.{kept_of};

    ghost Value = { List Kept };

    ghost view = { λ s. map kept_of s.live.items };
}

impl Snapshots {
    /// None.
    pub fn new(alloc: Global) -> Self
        ensures { result ≡ [] }
    {
        Snapshots {
            live: Vec::new(alloc),
        }
    }

    /// Takes a snapshot of the buffer under a number, and answers its version.
    pub fn take<W: Watcher>(&mut self, buffer: &mut Buffer<W>, number: u32) -> Result<u64, NoMemory>
        ensures version { IfOk result (λ version. version ≡ buffer.old.version) }
        ensures ok { OnOk result (self.new ≡ record { number = number; text = buffer.old.text } ∷ self.old) }
        ensures err { OnErr result (self.new ≡ self.old) }
        ensures buffer { buffer.new ≡ buffer.old }
    {
        let snapshot = buffer.take(free_hand(self.live.as_slice()))?;
        let version = snapshot.version();
        self.live.insert(0, Live { number, snapshot })?;
        Ok(version)
    }

    /// The snapshot that was taken last under a number, where there is one.
    pub fn find(&self, number: u32) -> Option<&Snapshot>
        ensures { option_map (λ s. s.now.text) result ≡ option_map (λ k. k.text) (find (has_number number) self.now) }
    {
        let at = place_of(self.live.as_slice(), number);
        if at < self.live.len() {
            Some(&self.live[at].snapshot)
        } else {
            None
        }
    }

    /// Ends the snapshot that was taken last under a number, where there is one.
    pub fn release<W: Watcher>(&mut self, buffer: &mut Buffer<W>, number: u32)
        ensures snapshots { self.new ≡ without_first number self.old }
        ensures buffer { buffer.new ≡ buffer.old }
    {
        let at = place_of(self.live.as_slice(), number);
        if at < self.live.len() {
            buffer.release(self.live.remove(at).snapshot);
        }
    }
}

// The place of the first that has a number; the length where none has it.
fn place_of(live: &[Live], number: u32) -> usize
    ensures { result ≡ place_in number live.now }
{
    for (at, one) in live.iter().enumerate() {
        if one.number == number {
            return at;
        }
    }
    live.len()
}

// A hand that holds on to none of these, where there is one.
fn free_hand(live: &[Live]) -> u32
    ensures { result < 32 }
{
    let mut taken = 0;
    for one in live {
        taken |= mask_of(one.snapshot.hand);
    }
    taken.trailing_ones().min(31)
}

// The bit of a hand.
fn mask_of(hand: u32) -> u32 {
    if hand < 32 { 1 << hand } else { 0 }
}
