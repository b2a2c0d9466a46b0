//! The numbered calls in the order of their numbers.
ghost use Rattle.std.specs.Prelude.{◌≡◌, map, replicate, length, Some, None, ⊤, MatchOption, IfOk};
ghost use Rattle.std.specs.Bool.{OnTrue, OnFalse};
ghost use Rattle.transcript_check.specs.Order.{IsOnce, IsOrder, AreSlots, IsTaken, IsFilled, HasGap};

use crate::calls::Called;
use points::NoMemory;
use std::alloc::Global;

/// Where each of the numbers 1 to N stands among the calls; none where one of them doesn't stand there exactly once.
pub(crate) fn in_order(alloc: Global, calls: &[Called<'_>]) -> Result<Option<Vec<usize>>, NoMemory>
    ensures once { IfOk result (λ o. MatchOption o (IsOnce calls.now → ⊥) (λ v. IsOnce calls.now)) }
    ensures order { IfOk result (λ o. MatchOption o ⊤ (λ v. IsOrder calls.now v.items)) }
{
    match slots(alloc, calls)? {
        None => Ok(None),
        Some(slots) => match whole(alloc, slots.as_slice())? {
            None => Ok(None),
            Some(order) => Ok(Some(order)),
        },
    }
}

// The slots of the numbers; none where one of the numbers stands twice.
fn slots(alloc: Global, calls: &[Called<'_>]) -> Result<Option<Vec<Option<usize>>>, NoMemory>
    ensures { IfOk result (λ o. MatchOption o (IsOnce calls.now → ⊥) (λ v. AreSlots calls.now (length calls.now) v.items)) }
{
    let mut slots = empty(alloc, calls.len())?;
    for i in 0..calls.len() {
        if !fill(&mut slots, i, calls[i].at()) {
            return Ok(None);
        }
    }
    Ok(Some(slots))
}

// So many empty slots.
fn empty(alloc: Global, count: usize) -> Result<Vec<Option<usize>>, NoMemory>
    ensures { IfOk result (λ v. v.items ≡ replicate count None) }
{
    let mut slots = Vec::new(alloc);
    for _i in 0..count {
        slots.push(None)?;
    }
    Ok(slots)
}

// Puts a place into the slot of a number, if there is such a slot. It answers whether that slot was free.
fn fill(slots: &mut Vec<Option<usize>>, place: usize, at: u64) -> bool
    ensures taken { OnFalse result (IsTaken slots.old.items at) }
    ensures filled { OnTrue result (IsFilled slots.old.items at place slots.new.items) }
{
    if at == 0 || at > slots.len() as u64 {
        return true;
    }
    let index = (at - 1) as usize;
    if slots[index].is_some() {
        return false;
    }
    slots[index] = Some(place);
    true
}

// The places in the slots; none where a slot is empty.
fn whole(alloc: Global, slots: &[Option<usize>]) -> Result<Option<Vec<usize>>, NoMemory>
    ensures { IfOk result (λ o. MatchOption o (HasGap slots.now) (λ v. slots.now ≡ map (λ j. Some j) v.items)) }
{
    let mut all = Vec::new(alloc);
    for i in 0..slots.len() {
        match slots[i] {
            None => return Ok(None),
            Some(place) => all.push(place)?,
        }
    }
    Ok(Some(all))
}
