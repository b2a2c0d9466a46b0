// The calls of a table.
ghost use Rattle.std.specs.Prelude.{◌≡◌, ℕ, true, false, [], ◌∷◌, List, Option, None, Some, IfOk, IfErr, IsOk, IfSome, option_map};
ghost use Rattle.turn_table.specs.declared.view.View.{View};
ghost use Rattle.turn_table.specs.Meaning.{MayFollow};
ghost use Rattle.turn_table.specs.Tokens.{IsDesk, IsHand};
ghost use Rattle.turn_table.specs.Steps.{Saw};
ghost use Rattle.turn_table.specs.Calls.{Has, Turned, MayCall, Took, Looked, Joined};

use crate::object::Object;
use crate::rule::{Begun, End, See};
use crate::table::TurnTable;
use crate::view::{Desk, HandSeat, View};
use atomic_table::{Badge, Seat};
use std::marker::Brand;
use std::mem;
use std::sync::Wait;

impl<O: Object> TurnTable<O> {
    // One call from a badge.
    fn call<R: Wait>(
        &self,
        rt: &R,
        badge: &mut Badge<View<O::Told, O::State>>,
        call: O::Call,
    ) -> Result<O::Reply, O::Call>
        requires table { badge.old.table_id ≡ self.now.table.shared.table_id }
        requires may { Has (λ v. MayCall O.meaning (O.told call) (O.back call) v.role) badge.old.views }
        ensures same { (badge.new.table_id ≡ badge.old.table_id) × (badge.new.id ≡ badge.old.id) }
        ensures ok { IfOk result (λ r. Turned (Took O.meaning (MayFollow O.meaning O.Meets) (O.state self.now.table.shared.key.object.value) self.now.table.shared.key.desks (O.back call) (option_map (λ h. h.1) (O.given r)) (O.told call r)) badge.old.views badge.new.views) }
        ensures given { IfOk result (λ r. IfSome (O.given r) (λ h. h.0 ≡ self.now.table.shared.table_id)) }
        ensures err { IfErr result (λ c. (c ≡ call) × Turned (Looked O.meaning (MayFollow O.meaning O.Meets) (O.state self.now.table.shared.key.object.value) self.now.table.shared.key.desks) badge.old.views badge.new.views) }
        ensures free { O.is_free call ≡ true → IsOk result }
    {
        let seat = mem::replace(badge, Badge::blank()).into_seat::<Option<O>>();
        let (seat, result) = self.turn(rt, seat, call);
        *badge = seat.into_badge();
        result
    }

    // The seat sees the whole history.
    fn see<B: Begun<O::State>>(&self, seat: &mut Seat<Option<O>, View<O::Told, O::State>>)
        requires table { seat.old.table_id ≡ self.now.table.shared.table_id }
        requires begun { (B.start ≡ Some (O.state self.now.table.shared.key.object.value)) × (B.desks ≡ self.now.table.shared.key.desks) }
        requires rests { seat.old.me.0.holds ≡ None }
        ensures id { (seat.new.table_id ≡ seat.old.table_id) × (seat.new.id ≡ seat.old.id) × (seat.new.me.1 ≡ seat.old.me.1) }
        ensures saw { Saw O.meaning (MayFollow O.meaning O.Meets) B.start B.desks seat.old.me.0 seat.new.me.0 }
    {
        self.table.shared.load::<See<O, B>>(seat, 0);
    }

    /// Plays a call from a desk, and waits for the lock. An `Err` is want of memory, and hands the call back.
    pub fn with<R: Wait>(
        &self,
        rt: &R,
        desk: &mut Desk<O::Told, O::State>,
        call: O::Call,
    ) -> Result<O::Reply, O::Call>
        requires table { desk.old.table_id ≡ self.now.table.shared.table_id }
        requires desk { Has IsDesk desk.old.views }
        requires back { O.back call ≡ None }
        ensures same { (desk.new.table_id ≡ desk.old.table_id) × (desk.new.id ≡ desk.old.id) }
        ensures desk { Has IsDesk desk.new.views }
        ensures ok { IfOk result (λ r. Turned (Took O.meaning (MayFollow O.meaning O.Meets) (O.state self.now.table.shared.key.object.value) self.now.table.shared.key.desks None (option_map (λ h. h.1) (O.given r)) (O.told call r)) desk.old.views desk.new.views) }
        ensures given { IfOk result (λ r. IfSome (O.given r) (λ h. h.0 ≡ self.now.table.shared.table_id)) }
        ensures err { IfErr result (λ c. (c ≡ call) × Turned (Looked O.meaning (MayFollow O.meaning O.Meets) (O.state self.now.table.shared.key.object.value) self.now.table.shared.key.desks) desk.old.views desk.new.views) }
        ensures free { O.is_free call ≡ true → IsOk result }
    {
        self.call(rt, desk, call)
    }

    /// Plays a call from a hand's seat. The call isn't numbered, and gives back no hand but this one, whose seat is
    /// spent then. An `Err` is want of memory, and hands the call back.
    pub fn with_hand<R: Wait>(
        &self,
        rt: &R,
        hand: &mut HandSeat<O::Told, O::State>,
        call: O::Call,
    ) -> Result<O::Reply, O::Call>
        requires table { hand.old.table_id ≡ self.now.table.shared.table_id }
        requires hand { (n : ℕ) × Has (IsHand n) hand.old.views × ((b : ℕ) → O.back call ≡ Some b → b ≡ n) }
        requires numbered { (r : O.Reply) → O.meaning.is_numbered (O.told call r) ≡ false }
        ensures same { (hand.new.table_id ≡ hand.old.table_id) × (hand.new.id ≡ hand.old.id) }
        ensures ok { IfOk result (λ r. Turned (Took O.meaning (MayFollow O.meaning O.Meets) (O.state self.now.table.shared.key.object.value) self.now.table.shared.key.desks (O.back call) (option_map (λ h. h.1) (O.given r)) (O.told call r)) hand.old.views hand.new.views) }
        ensures given { IfOk result (λ r. IfSome (O.given r) (λ h. h.0 ≡ self.now.table.shared.table_id)) }
        ensures err { IfErr result (λ c. (c ≡ call) × Turned (Looked O.meaning (MayFollow O.meaning O.Meets) (O.state self.now.table.shared.key.object.value) self.now.table.shared.key.desks) hand.old.views hand.new.views) }
        ensures free { O.is_free call ≡ true → IsOk result }
    {
        self.call(rt, hand, call)
    }

    /// Ends a desk into another, which then stands for the desk numbers of both. It waits for nobody.
    pub fn end(&self, desk: Desk<O::Told, O::State>, into: &mut Desk<O::Told, O::State>)
        requires table { (desk.table_id ≡ self.now.table.shared.table_id) × (into.old.table_id ≡ self.now.table.shared.table_id) }
        requires desks { Has IsDesk desk.views × Has IsDesk into.old.views }
        ensures same { (into.new.table_id ≡ into.old.table_id) × (into.new.id ≡ into.old.id) }
        ensures desk { Has IsDesk into.new.views }
        ensures joined { (other : View O.Told O.State) → desk.views ≡ other ∷ [] → Turned (λ v w. Joined O.meaning (MayFollow O.meaning O.Meets) (O.state self.now.table.shared.key.object.value) self.now.table.shared.key.desks v other w) into.old.views into.new.views }
    {
        let mut seat = mem::replace(into, Badge::blank()).into_seat::<Option<O>>();
        self.table
            .shared
            .join_seat::<End>(&mut seat, desk.into_seat::<Option<O>>());
        self.see::<Brand>(&mut seat);
        *into = seat.into_badge();
    }

    /// Plays one last call from a desk and gives the table up, with the object. An `Err` is want of memory, and hands
    /// all three back.
    pub fn close<R: Wait>(
        self,
        rt: &R,
        desk: Desk<O::Told, O::State>,
        call: O::Call,
    ) -> Result<O::Reply, (TurnTable<O>, Desk<O::Told, O::State>, O::Call)>
        requires table { desk.table_id ≡ self.table.shared.table_id }
        requires desk { Has IsDesk desk.views }
        requires back { O.back call ≡ None }
        ensures ok { IfOk result (λ r. (v : View O.Told O.State) → desk.views ≡ v ∷ [] → (w : View O.Told O.State) × Took O.meaning (MayFollow O.meaning O.Meets) (O.state self.table.shared.key.object.value) self.table.shared.key.desks None (option_map (λ h. h.1) (O.given r)) (O.told call r) v w) }
        ensures err { IfErr result (λ x. (x.2 ≡ call) × Turned (Looked O.meaning (MayFollow O.meaning O.Meets) (O.state self.table.shared.key.object.value) self.table.shared.key.desks) desk.views x.1.views) }
        ensures same { IfErr result (λ x. (x.0.table.shared.table_id ≡ self.table.shared.table_id) × (x.0.table.shared.key ≡ self.table.shared.key) × (x.1.table_id ≡ desk.table_id) × Has IsDesk x.1.views) }
        ensures free { O.is_free call ≡ true → IsOk result }
    {
        let mut desk = desk;
        match self.with(rt, &mut desk, call) {
            Ok(reply) => Ok(reply),
            Err(call) => Err((self, desk, call)),
        }
    }
}
