//! The hands that a session has spare, and its live snapshots.
ghost use Rattle.std.specs.Prelude.{◌≡◌, ◌<◌, ◌==◌, [], map, true, vec_len, IfOk};
ghost use Rattle.std.specs.List.{list_any};
ghost use Rattle.machine.specs.Plain.{kept_text};
ghost use Rattle.turn_table.specs.Calls.{Turned};
ghost use Rattle.shared_buffer.specs.Tokens.{IsDeskOf};
ghost use Rattle.sessions.specs.Running.{IsTakenAs, without_first};
ghost use Rattle.sessions.specs.Holding.{hands_of, place_in, number_of};

use points::NoMemory;
use shared_buffer::{Desk, Hand, PlainBuffer, SharedBuffer, Snapshot};
use std::alloc::Global;
use std::marker::Model;
use std::sync::Wait;

/// A hand that is free for a snapshot. It is spent where it is dropped.
pub struct SpareHand {
    pub(crate) hand: Hand,
}

impl SpareHand {
    /// This hand.
    pub fn new(hand: Hand) -> Self {
        SpareHand { hand }
    }

    // The hand itself.
    fn into_hand(self) -> Hand {
        let SpareHand { hand } = self;
        hand
    }
}

impl Drop for SpareHand {
    fn drop(self) {
        let SpareHand { hand } = self;
        hand.retire();
    }
}

// A snapshot under a number of the session's own. It is spent where it is dropped.
pub(crate) struct Live {
    number: u32,
    snapshot: Snapshot,
}

impl Live {
    // The snapshot itself.
    fn into_snapshot(self) -> Snapshot {
        let Live {
            number: _,
            snapshot,
        } = self;
        snapshot
    }
}

impl Drop for Live {
    fn drop(self) {
        let Live {
            number: _,
            snapshot,
        } = self;
        snapshot.retire();
    }
}

// What a session holds beside its desk. Contracts see how many hands are spare, and the numbers and texts of the live
// snapshots, the last taken first.
#[derive(Drop)]
pub(crate) struct Holding {
    hands: Vec<SpareHand>,
    live: Vec<Live>,
}

impl Model for Holding {
    ghost use Rattle.std.specs.Prelude.{◌+◌, ◌≤◌, map, vec_len, vec_capacity};
    ghost use Rattle.sessions.specs.Holding.{Held, kept_of};

    ghost Value = { Held };

    ghost view = { λ h. record { spare = vec_len h.hands; kept = map kept_of h.live.items } };

    ghost invariant = { λ h. vec_len h.hands + vec_len h.live ≤ vec_capacity h.hands };
}

impl Holding {
    // These hands, and no snapshot.
    pub(crate) fn new(alloc: Global, hands: Vec<SpareHand>) -> Self
        ensures spare { result.spare ≡ vec_len hands }
        ensures kept { result.kept ≡ [] }
    {
        Holding {
            hands,
            live: Vec::new(alloc),
        }
    }

    // Takes a snapshot under a number, and tells its version.
    pub(crate) fn take<B: PlainBuffer + Send, R: Wait>(
        &mut self,
        rt: &R,
        buffer: &SharedBuffer<B>,
        desk: &mut Desk,
        number: u32,
    ) -> Result<u64, NoMemory>
        requires desk { IsDeskOf buffer.now desk.old }
        requires spare { 0 < self.old.spare }
        ensures desk { IsDeskOf buffer.now desk.new }
        ensures taken { IfOk result (λ version. Turned (λ v w. IsTakenAs buffer.now version number self.old.kept self.new.kept v w) desk.old.views desk.new.views) }
        ensures hands { IfOk result (λ version. hands_of self.new ≡ hands_of self.old) }
    {
        let Some(spare) = self.hands.pop() else {
            unreachable!()
        };
        match buffer.take(rt, desk, spare.into_hand()) {
            Ok(snapshot) => {
                let version = snapshot.version;
                self.live.insert(0, Live { number, snapshot })?;
                Ok(version)
            }
            Err(hand) => {
                hand.retire();
                Err(NoMemory)
            }
        }
    }

    // The live snapshot with a number.
    pub(crate) fn find(&self, number: u32) -> &Snapshot
        requires { list_any (λ n. n == number) (map number_of self.now.kept) ≡ true }
        ensures { result.now.reader.text ≡ kept_text number self.now.kept }
    {
        &self.live[place_of(self.live.as_slice(), number)].snapshot
    }

    // Gives up the live snapshot with a number, where there is one. Its hand is spare again.
    pub(crate) fn release<B: PlainBuffer + Send>(&mut self, buffer: &SharedBuffer<B>, number: u32)
        ensures kept { self.new.kept ≡ without_first number self.old.kept }
        ensures hands { hands_of self.new ≡ hands_of self.old }
    {
        let at = place_of(self.live.as_slice(), number);
        if at < self.live.len() {
            let snapshot = self.live.remove(at).into_snapshot();
            let hand = buffer.release(snapshot);
            self.hands.push_reserved(SpareHand { hand });
        }
    }
}

// The place of the first that has a number; the length where none has it.
fn place_of(live: &[Live], number: u32) -> usize
    ensures { result ≡ place_in number live.now }
{
    for (at, one) in live.iter().enumerate() {
        if one.number == number {
            return at;
        }
    }
    live.len()
}
