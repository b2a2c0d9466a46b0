// A table as it begins, with its desks and hands.
ghost use Rattle.std.specs.Prelude.{◌≡◌, ℕ, ◌+◌, ◌<◌, ◌≤◌, true, [], ◌∷◌, List, Option, None, Some, IfOk, IfErr, length, vec_len, vec_capacity, slice_index_or};
ghost use Rattle.atomic_table.specs.Seated.{TableId};
ghost use Rattle.turn_table.specs.declared.view.View.{View};
ghost use Rattle.turn_table.specs.Openings.{AreDealt, AreOutBelow, deals_from, new_desk, first_hand};

use crate::object::Object;
use crate::rule::{DealDesk, DealHand, Key};
use crate::table::TurnTable;
use crate::view::{Desk, HandSeat, View};
use atomic_table::{Refused, Seat, Table};
use points::MAX_HANDS;
use std::alloc::Global;
use std::snapshot::Snapshot;

/// The most desks that a table may have.
pub const MAX_DESKS: u32 = 64;

/// A table with its desks and hands, in the order of their numbers.
#[derive(Drop)]
pub struct Tokens<O: Object> {
    pub table: TurnTable<O>,
    pub desks: Vec<Desk<O::Told, O::State>>,
    pub hands: Vec<HandSeat<O::Told, O::State>>,
}

// What was to lie under the lock, from a row of one slot.
fn taken_back<O>(slots: Vec<Option<O>>) -> O
    requires { (o : O) × (slots.items ≡ Some o ∷ []) }
    ensures { slots.items ≡ Some result ∷ [] }
{
    let mut slots = slots;
    let slot = slots.pop().unwrap();
    slots.destroy_empty();
    slot.unwrap()
}

impl<O: Object> TurnTable<O> {
    // Gives out the desks, in the order of their numbers.
    #[tactic(auto, using(crate::proofs::OpenLemmas::none_dealt, crate::proofs::OpenLemmas::one_dealt))]
    fn deal_desks(
        &self,
        seat: &mut Seat<Option<O>, View<O::Told, O::State>>,
        desks: &mut Vec<Desk<O::Told, O::State>>,
        count: u32,
        hands: u32,
    )
        requires table { seat.old.table_id ≡ self.now.table.shared.table_id }
        requires room { (desks.old.items ≡ []) × (count ≤ vec_capacity desks.old) }
        requires count { count ≡ self.now.table.shared.key.desks }
        requires view { seat.old.me ≡ (deals_from 0 count 0 hands, []) }
        ensures id { (seat.new.table_id ≡ seat.old.table_id) × (seat.new.me ≡ (deals_from count count 0 hands, [])) }
        ensures dealt { AreDealt self.now.table.shared.table_id new_desk count desks.new.items }
    {
        for _ in 0..count {
            let desk = self.table.shared.split_seat::<DealDesk>(seat).into_badge();
            desks.push_reserved(desk);
        }
    }

    // Gives out the hands, in the order of their numbers.
    #[tactic(auto, using(crate::proofs::OpenLemmas::none_dealt, crate::proofs::OpenLemmas::one_dealt))]
    fn deal_hands(
        &self,
        seat: &mut Seat<Option<O>, View<O::Told, O::State>>,
        hands: &mut Vec<HandSeat<O::Told, O::State>>,
        desks: u32,
        count: u32,
    )
        requires table { seat.old.table_id ≡ self.now.table.shared.table_id }
        requires room { (hands.old.items ≡ []) × (count ≤ vec_capacity hands.old) }
        requires view { seat.old.me ≡ (deals_from desks desks 0 count, []) }
        ensures dealt { AreDealt self.now.table.shared.table_id first_hand count hands.new.items }
    {
        for _ in 0..count {
            let hand = self.table.shared.split_seat::<DealHand>(seat).into_badge();
            hands.push_reserved(hand);
        }
    }
}

impl<O: Object> TurnTable<O> {
    // The table round an object, and its first seat.
    fn found(
        alloc: Global,
        object: O,
        desks: u32,
        hands: u32,
    ) -> Result<(TurnTable<O>, Seat<Option<O>, View<O::Told, O::State>>), O>
        requires out { AreOutBelow O.meaning hands (O.state object) }
        ensures ok { IfOk result (λ t. (t.0.table.shared.key.object.value ≡ object) × (t.0.table.shared.key.desks ≡ desks) × (t.1.table_id ≡ t.0.table.shared.table_id) × (t.1.me ≡ (deals_from 0 desks 0 hands, []))) }
        ensures err { IfErr result (λ o. o ≡ object) }
    {
        let Ok(mut slots) = Vec::with_capacity(alloc, 1) else {
            return Err(object);
        };
        let key = Key {
            object: Snapshot::of(&object),
            desks,
            hands,
        };
        slots.push_reserved(Some(object));
        match Table::new(alloc, &[0, 0], slots, &key) {
            Ok((table, seat)) => Ok((TurnTable { table }, seat)),
            Err(Refused { slots }) => Err(taken_back(slots)),
        }
    }

    /// A table round an object, with desks numbered from 0 to `desks` - 1 and hands from 0 to `hands` - 1. An `Err` is
    /// want of memory, and hands the object back.
    pub fn new(alloc: Global, object: O, desks: u32, hands: u32) -> Result<Tokens<O>, O>
        requires desks { (1 ≤ desks) × (desks ≤ MAX_DESKS) }
        requires hands { hands ≤ MAX_HANDS }
        requires out { AreOutBelow O.meaning hands (O.state object) }
        ensures key { IfOk result (λ t. (t.table.table.shared.key.object.value ≡ object) × (t.table.table.shared.key.desks ≡ desks)) }
        ensures desks { IfOk result (λ t. AreDealt t.table.table.shared.table_id new_desk desks t.desks.items) }
        ensures hands { IfOk result (λ t. AreDealt t.table.table.shared.table_id first_hand hands t.hands.items) }
        ensures err { IfErr result (λ o. o ≡ object) }
    {
        let Ok(mut desk_seats) = Vec::with_capacity(alloc, desks as usize) else {
            return Err(object);
        };
        let Ok(mut hand_seats) = Vec::with_capacity(alloc, hands as usize) else {
            return Err(object);
        };
        let (table, mut seat) = TurnTable::found(alloc, object, desks, hands)?;
        table.deal_desks(&mut seat, &mut desk_seats, desks, hands);
        table.deal_hands(&mut seat, &mut hand_seats, desks, hands);
        Ok(Tokens {
            table,
            desks: desk_seats,
            hands: hand_seats,
        })
    }
}
