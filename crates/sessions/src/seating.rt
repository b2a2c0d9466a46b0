//! Desks and hands are dealt to sessions, and gathered in again.
ghost use Rattle.std.specs.Prelude.{◌≡◌, ◌≤◌, ◌+◌, ◌<◌, ◌∷◌, [], List, vec_len, length, IfOk, IfErr, OnOk};
ghost use Rattle.std.specs.List.{AllByRecursion};
ghost use Rattle.turn_table.specs.Calls.{Has};
ghost use Rattle.shared_buffer.specs.Tokens.{IsDeskOf, Known};
ghost use Rattle.sessions.specs.Running.{IsOut};
ghost use Rattle.sessions.specs.Seats.{AreSeated, hands_wanted, HasEnded, HaveRun, IsGatheredIn, Work};

use crate::holding::SpareHand;
use crate::plan::Plan;
use crate::refusal::RunRefusal;
use crate::seat::Seat;
use machine::{Reply, Sequence};
use outer::Matcher;
use points::NoMemory;
use shared_buffer::{Desk, Hand, PlainBuffer, SharedBuffer};
use std::alloc::Global;

// Seats each session at the desk of its place, with the hands that its plan wants. Hands that are left are spent.
pub(crate) fn seat_all<M: Drop>(
    alloc: Global,
    desks: Vec<Desk>,
    hands: Vec<Hand>,
    plans: Vec<Plan<M>>,
) -> Result<Vec<Seat<M>>, NoMemory>
    requires desks { vec_len desks ≡ vec_len plans }
    requires hands { hands_wanted plans.items ≤ vec_len hands }
    ensures { IfOk result (λ seats. AreSeated plans.items desks.items seats.items) }
{
    let mut spare = spare_hands(alloc, hands)?;
    let mut desks = desks.into_iter();
    let mut seats = Vec::new(alloc);
    for plan in plans {
        let Some(desk) = desks.next() else {
            unreachable!()
        };
        seats.push(seat_one(&mut spare, desk, plan)?)?;
    }
    Ok(seats)
}

// Seats one session.
fn seat_one<M: Drop>(
    spare: &mut Vec<SpareHand>,
    desk: Desk,
    plan: Plan<M>,
) -> Result<Seat<M>, NoMemory>
    requires hands { plan.hands ≤ vec_len spare.old }
    ensures seat { IfOk result (λ seat. AreSeated (plan ∷ []) (desk ∷ []) (seat ∷ [])) }
    ensures rest { OnOk result (vec_len spare.new + plan.hands ≡ vec_len spare.old) }
{
    let hands = spare.split_off(spare.len() - plan.hands as usize)?;
    Ok(Seat {
        desk,
        hands,
        commands: plan.commands,
        matchers: plan.matchers,
        ended: None,
    })
}

// These hands, which are spent where they are dropped.
fn spare_hands(alloc: Global, mut hands: Vec<Hand>) -> Result<Vec<SpareHand>, NoMemory>
    ensures { IfOk result (λ spare. vec_len spare ≡ vec_len hands) }
{
    let Ok(mut spare) = Vec::with_capacity(alloc, hands.len()) else {
        retire_all(hands);
        return Err(NoMemory);
    };
    while let Some(hand) = hands.pop() {
        spare.push_reserved(SpareHand::new(hand));
    }
    hands.destroy_empty();
    Ok(spare)
}

// Spends hands without a call.
fn retire_all(mut hands: Vec<Hand>) {
    while let Some(hand) = hands.pop() {
        hand.retire();
    }
    hands.destroy_empty();
}

// Ends all desks into the first, and gathers the replies of the sessions. An `Err` is that of the first session without
// replies, or want of memory.
pub(crate) fn gather<B: PlainBuffer + Send, M: Matcher>(
    alloc: Global,
    buffer: &SharedBuffer<B>,
    seats: Vec<Seat<M>>,
) -> Result<(Desk, Vec<Sequence<Reply>>), RunRefusal>
    requires some { 0 < vec_len seats }
    requires ended { AllByRecursion (HasEnded M.tells buffer.now) seats.items }
    ensures desk { IfOk result (λ r. IsDeskOf buffer.now r.0) }
    ensures spent { IfErr result (λ no. no ≡ RunRefusal.Spent → (v : Known) × IsOut buffer.now v) }
    ensures gathered { IfOk result (λ r. (ws : List Work) → length ws ≤ buffer.now.desks → HaveRun M.tells buffer.now 0 ws seats.items → Has (IsGatheredIn buffer.now ws r.1.items) r.0.views) }
{
    let mut left = seats.into_iter();
    let Some(first) = left.next() else {
        unreachable!()
    };
    let (mut desk, replies) = first.into_ended()?;
    let mut all = Vec::new(alloc);
    all.push(Sequence::new(replies))?;
    for seat in left {
        let (other, replies) = seat.into_ended()?;
        buffer.end(other, &mut desk);
        all.push(Sequence::new(replies))?;
    }
    Ok((desk, all))
}
