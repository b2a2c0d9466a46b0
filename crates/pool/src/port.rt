//! What sessions send through.
ghost use Rattle.std.specs.Prelude.{◌≡◌, ◌<◌, ◌≤◌, ◌∷◌, [], length, true, MatchOption, IfSome, vec_capacity};
ghost use Rattle.crossbeam_queue.specs.Passes.{view, ruled_capacity};
ghost use Rattle.handover.specs.Accounts.{share};
ghost use Rattle.pool.specs.Sendings.{PLACES, queued, run_here, then_sent, WasFull};
ghost use Rattle.pool.specs.Shifts.{IsAccountOf, HasSent};

use crate::kept::{Kept, run_at_once};
use crate::noted::Noted;
use crate::stage::Pool;
use gates::Gate;
use handover::{Account, Handover};
use outer::{Matcher, Sink};
use shared_buffer::{Hand, PlainBuffer, SharedBuffer};
use std::alloc::Global;
use std::marker::Model;
use std::snapshot::Snapshot as Shown;
use std::sync::Wait;
use workers::{Sent, Task};

/// Through which a session sends its tasks. Contracts see what it sent, in order; how many tasks it may send; whether
/// there are workers; and which queue it puts to.
#[derive(Drop)]
pub struct Port<'a, B: PlainBuffer + Send, M: Matcher, K: Sink + Drop, G: Gate> {
    alloc: Global,
    queue: &'a Handover<Sent<M, K>>,
    buffer: &'a SharedBuffer<B>,
    gate: &'a G,
    helped: bool,
    most: usize,
    account: Account<Sent<M, K>>,
    sent: Vec<Noted<M, K>>,
    dones: Vec<Kept<M, K>>,
}

impl<'a, B: PlainBuffer + Send, M: Matcher, K: Sink + Drop, G: Gate> Model
    for Port<'a, B, M, K, G> {
    ghost use Rattle.std.specs.Prelude.{◌≡◌, ◌≤◌, map, vec_len, vec_capacity};
    ghost use Rattle.crossbeam_queue.specs.Passes.{ruled_capacity};
    ghost use Rattle.pool.specs.Sendings.{Sendings, noted, PLACES};
    ghost use Rattle.pool.specs.Shifts.{IsAccountOf, HasSent};

    ghost Value = { Sendings M K };

    ghost view = { λ p. record { sent = map noted p.sent.items; most = p.most; helped = p.helped; queue = p.queue.now.ring.table.shared.table_id } };

    ghost invariant = { λ p. IsAccountOf p.queue.now.ring p.account × (ruled_capacity p.queue.now.ring ≡ PLACES) × HasSent M.tells K.taken K.faults p.account.me.0.client (map noted p.sent.items) p.dones.items × (vec_len p.sent ≤ p.most) × (vec_len p.dones ≤ vec_len p.sent) × (p.most ≤ vec_capacity p.sent) × (p.most ≤ vec_capacity p.dones) };
}

impl<'a, B: PlainBuffer + Send, M: Matcher, K: Sink + Drop, G: Gate> Port<'a, B, M, K, G> {
    // A port through which nothing was sent yet, with room for so many tasks.
    pub(crate) fn new(
        pool: &Pool<'a, B, M, K, G>,
        most: usize,
        account: Account<Sent<M, K>>,
        sent: Vec<Noted<M, K>>,
        dones: Vec<Kept<M, K>>,
    ) -> Port<'a, B, M, K, G>
        requires places { ruled_capacity pool.now.queue.now.ring ≡ PLACES }
        requires account { IsAccountOf pool.now.queue.now.ring account × (view account ≡ share 1 [] []) }
        requires empty { (sent.items ≡ []) × (dones.items ≡ []) }
        requires room { (most ≤ vec_capacity sent) × (most ≤ vec_capacity dones) }
        ensures { result ≡ record { sent = []; most = most; helped = pool.now.helped; queue = pool.now.queue.now.ring.table.shared.table_id } }
    {
        Port {
            alloc: pool.alloc,
            queue: pool.queue,
            buffer: pool.buffer,
            gate: pool.gate,
            helped: pool.helped,
            most,
            account,
            sent,
            dones,
        }
    }

    // The account of the session, and what came of the tasks that it ran.
    pub(crate) fn end(self) -> (Account<Sent<M, K>>, Vec<Kept<M, K>>)
        ensures account { (result.0.table_id ≡ self.entry.queue) × (result.0.me.1 ≡ []) × ((view result.0).parts ≡ 1) }
        ensures sent { HasSent M.tells K.taken K.faults (view result.0) self.entry.sent result.1.items }
    {
        let Port {
            alloc: _,
            queue: _,
            buffer: _,
            gate: _,
            helped: _,
            most: _,
            account,
            sent: _,
            dones,
        } = self;
        (account, dones)
    }

    /// Sends a task. `None`: it is in the queue, and will be run once. `Some`: it was run here, and this is the hand of its
    /// snapshot; that comes only where every place of the queue was taken at one moment of the call, or there are no workers.
    pub fn send<R: Wait>(&mut self, rt: &R, task: Task<M, K>) -> Option<Hand>
        requires { length self.old.sent < self.old.most }
        ensures sent { MatchOption result (self.new ≡ then_sent self.old (queued task ∷ [])) (λ _. self.new ≡ then_sent self.old (run_here task ∷ [])) }
        ensures hand { IfSome result (λ h. h ≡ task.front.hand) }
        ensures full { IfSome result (λ _. self.old.helped ≡ true → WasFull M K) }
    {
        if !self.helped {
            return Some(self.run_here(rt, task));
        }
        prove!(self.sent.len() < self.most);
        let shown = Shown::of(&task);
        match self.queue.put(rt, &mut self.account, Sent::new(task)) {
            Ok(()) => {
                self.sent.push_reserved(Noted {
                    task: shown,
                    here: false,
                });
                None
            }
            Err(sent) => Some(self.run_here(rt, sent.open())),
        }
    }

    /// Runs a task here, and answers the hand of its snapshot.
    pub fn run_here<R: Wait>(&mut self, rt: &R, task: Task<M, K>) -> Hand
        requires { length self.old.sent < self.old.most }
        ensures sent { self.new ≡ then_sent self.old (run_here task ∷ []) }
        ensures hand { result ≡ task.front.hand }
    {
        prove!(self.sent.len() < self.most);
        let shown = Shown::of(&task);
        let (done, hand) = run_at_once(rt, self.alloc, self.buffer, self.gate, task);
        self.sent.push_reserved(Noted {
            task: shown,
            here: true,
        });
        self.dones.push_reserved(done);
        hand
    }
}
