// The table with its lock, and what a call does under it.
ghost use Rattle.std.specs.Prelude.{◌≡◌, ℕ, ◌<◌, ◌≤◌, true, false, [], ◌∷◌, List, Option, None, Some, IfOk, IfErr, IsOk, IfSome, MatchBool, MatchOption, MatchResult, option_map};
ghost use Rattle.turn_table.specs.declared.view.View.{View};
ghost use Rattle.turn_table.specs.Meaning.{MayFollow};
ghost use Rattle.turn_table.specs.Turns.{IsDecidable, MayLetGo};
ghost use Rattle.turn_table.specs.Steps.{Grabbed, decided, let_go};
ghost use Rattle.turn_table.specs.Calls.{Began};

use crate::object::Object;
use crate::rule::{Asking, Begun, Decide, Grab, Key, Law, LetGo};
use crate::view::View;
use atomic_table::{Seat, Table};
use std::alloc::Global;
use std::hint::spin_loop;
use std::marker::Brand;
use std::snapshot::Snapshot;
use std::sync::Wait;
use std::thread::yield_now;

// How often a thread tries for the lock before it lets another run.
const TRIES: u32 = 64;

/// An object under a lock, with one history of the calls that were played on it.
#[derive(Drop)]
pub struct TurnTable<O: Object> {
    pub(crate) table: Table<Option<O>, View<O::Told, O::State>, Key<O>, Law<O>, Global>,
    ghost sized: { (table.shared.table_id.words ≡ 2) × (table.shared.table_id.slots ≡ 1) },
}

impl<O: Object> TurnTable<O> {
    // One try for the lock.
    fn grab<B: Begun<O::State>>(&self, seat: &mut Seat<Option<O>, View<O::Told, O::State>>) -> bool
        requires table { seat.old.table_id ≡ self.now.table.shared.table_id }
        requires begun { (B.start ≡ Some (O.state self.now.table.shared.key.object.value)) × (B.desks ≡ self.now.table.shared.key.desks) }
        ensures id { (seat.new.table_id ≡ seat.old.table_id) × (seat.new.id ≡ seat.old.id) }
        ensures lock { MatchBool result (Grabbed O.meaning (MayFollow O.meaning O.Meets) O.state B.start B.desks seat.old.me seat.new.me) (seat.new.me ≡ seat.old.me) }
    {
        let shared = &self.table.shared;
        shared.compare_exchange::<Grab<O, B>>(seat, 0, 0, 1) == 0
    }

    // Waits for the lock.
    fn lock<B: Begun<O::State>, R: Wait>(
        &self,
        rt: &R,
        seat: &mut Seat<Option<O>, View<O::Told, O::State>>,
    )
        requires table { seat.old.table_id ≡ self.now.table.shared.table_id }
        requires begun { (B.start ≡ Some (O.state self.now.table.shared.key.object.value)) × (B.desks ≡ self.now.table.shared.key.desks) }
        ensures id { (seat.new.table_id ≡ seat.old.table_id) × (seat.new.id ≡ seat.old.id) }
        ensures lock { Grabbed O.meaning (MayFollow O.meaning O.Meets) O.state B.start B.desks seat.old.me seat.new.me }
    {
        let mut tried = 0;
        for _ in rt.forever() {
            if self.grab::<B>(seat) {
                return;
            }
            if tried < TRIES {
                tried += 1;
                spin_loop();
            } else {
                yield_now();
            }
        }
        unreachable!()
    }

    // Takes the lock and the object.
    pub(crate) fn begin<R: Wait>(
        &self,
        rt: &R,
        seat: &mut Seat<Option<O>, View<O::Told, O::State>>,
    ) -> O
        requires table { (seat.old.table_id ≡ self.now.table.shared.table_id) × (seat.old.me.1 ≡ []) }
        ensures id { (seat.new.table_id ≡ seat.old.table_id) × (seat.new.id ≡ seat.old.id) }
        ensures carries { seat.new.me.1 ≡ (0, None) ∷ [] }
        ensures began { Began O.meaning (MayFollow O.meaning O.Meets) (O.state self.now.table.shared.key.object.value) self.now.table.shared.key.desks (O.state result) seat.old.me.0 seat.new.me.0 }
    {
        self.lock::<Brand, R>(rt, seat);
        self.table.shared.exchange(seat, 0, None).unwrap()
    }

    // Makes the call that was played the last entry of the history.
    pub(crate) fn decide<A: Asking<O::Told>>(
        &self,
        seat: &mut Seat<Option<O>, View<O::Told, O::State>>,
        asked: &Snapshot<O::Call>,
        reply: &O::Reply,
    )
        requires table { seat.old.table_id ≡ self.now.table.shared.table_id }
        requires entry { A.entry ≡ Some (O.told asked.now.value reply.now) }
        requires may { IsDecidable O.meaning (MayFollow O.meaning O.Meets) A.entry A.back seat.old.me.0 }
        ensures id { (seat.new.table_id ≡ seat.old.table_id) × (seat.new.id ≡ seat.old.id) }
        ensures entry { seat.new.me ≡ (decided O.meaning A.back (O.told asked.now.value reply.now) seat.old.me.0, seat.old.me.1) }
    {
        let _ = asked;
        let _ = reply;
        self.table.shared.fetch_add::<Decide<O, A>>(seat, 1, 1);
    }

    // Puts the object back and lets the lock go.
    pub(crate) fn finish(&self, seat: &mut Seat<Option<O>, View<O::Told, O::State>>, object: O)
        requires table { (seat.old.table_id ≡ self.now.table.shared.table_id) × (seat.old.me.1 ≡ (0, None) ∷ []) }
        requires may { MayLetGo O.meaning (O.state object) seat.old.me.0 }
        ensures id { (seat.new.table_id ≡ seat.old.table_id) × (seat.new.id ≡ seat.old.id) }
        ensures rests { seat.new.me ≡ (let_go seat.old.me.0, []) }
    {
        drop(self.table.shared.exchange(seat, 0, Some(object)));
        self.table.shared.swap::<LetGo>(seat, 0, 0);
    }
}
