//! What a worker does.
ghost use Rattle.std.specs.Prelude.{◌≡◌, ◌≤◌, length, map, All, IsPermutation, vec_capacity};
ghost use Rattle.crossbeam_queue.specs.Passes.{view, IsPassOf};
ghost use Rattle.handover.specs.Accounts.{ALL_PARTS};
ghost use Rattle.pool.specs.Sendings.{IsEnded, queued, sending_of};
ghost use Rattle.pool.specs.Shifts.{IsAccountOf, HasHelped};

use crate::kept::{Kept, run_for_another};
use gates::Gate;
use handover::{Account, Handover};
use outer::{Matcher, Sink};
use shared_buffer::{PlainBuffer, SharedBuffer};
use std::alloc::Global;
use std::sync::Wait;
use workers::Sent;

// Runs tasks of the queue, and waits for them, until the end is told and the queue is empty, or there is no room for more.
pub(crate) fn run_worker<B: PlainBuffer + Send, M: Matcher, K: Sink + Drop, G: Gate, R: Wait>(
    rt: &R,
    alloc: Global,
    queue: &Handover<Sent<M, K>>,
    buffer: &SharedBuffer<B>,
    gate: &G,
    account: &mut Account<Sent<M, K>>,
    dones: &mut Vec<Kept<M, K>>,
)
    requires account { IsAccountOf queue.now.ring account.old }
    requires helped { HasHelped M.tells K.taken K.faults (view account.old) dones.old.items }
    ensures account { IsAccountOf queue.now.ring account.new }
    ensures put { (view account.new).put ≡ (view account.old).put }
    ensures helped { HasHelped M.tells K.taken K.faults (view account.new) dones.new.items }
{
    for _ in rt.forever() {
        if dones.len() == dones.capacity() {
            return;
        }
        match queue.wait(rt, account) {
            Some(sent) => {
                let done = run_for_another(rt, alloc, buffer, gate, sent.open());
                dones.push_reserved(done);
            }
            None => return,
        }
    }
    unreachable!()
}

// Runs what is left in the queue, once all accounts are settled into this one. What came of the tasks that others ran is
// there, and there is room for all that was put.
pub(crate) fn drain<B: PlainBuffer + Send, M: Matcher, K: Sink + Drop, G: Gate, R: Wait>(
    rt: &R,
    alloc: Global,
    queue: &Handover<Sent<M, K>>,
    buffer: &SharedBuffer<B>,
    gate: &G,
    mut account: Account<Sent<M, K>>,
    mut dones: Vec<Kept<M, K>>,
) -> Vec<Kept<M, K>>
    requires account { IsPassOf queue.now.ring account × ((view account).parts ≡ ALL_PARTS) }
    requires helped { HasHelped M.tells K.taken K.faults (view account) dones.items }
    requires room { length (view account).put ≤ vec_capacity dones }
    ensures once { IsPermutation (map queued (view account).put) (map sending_of result.items) }
    ensures ended { All (IsEnded M.tells K.taken K.faults) result.items }
{
    for _ in rt.forever() {
        match queue.take(rt, &mut account) {
            Some(sent) => {
                queue.whole(&mut account);
                let done = run_for_another(rt, alloc, buffer, gate, sent.open());
                dones.push_reserved(done);
            }
            None => return dones,
        }
    }
    unreachable!()
}
