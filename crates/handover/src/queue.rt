//! The queue and its calls.
ghost use Rattle.std.specs.Prelude.{◌≡◌, ◌<◌, ◌+◌, ◌-◌, [], ◌++◌, IfOk, MatchOption, MatchResult};
ghost use Rattle.std.specs.List.Sorted.{IsPermutation};
ghost use Rattle.crossbeam_queue.specs.Fifo.{Held};
ghost use Rattle.crossbeam_queue.specs.Passes.{view, IsPassOf, ruled_capacity};
ghost use Rattle.handover.specs.Accounts.{share, ALL_PARTS, with_put, with_taken, Learned};

use crate::rule::{Account, Balance, Opening, Puts, Settling, Share, Takes};
use crossbeam_queue::RuledArrayQueue;
use std::alloc::{AllocError, Global};
use std::sync::{Condvar, Mutex, Wait};

// How often something was put, and whether the end was told.
#[derive(Drop)]
struct Moves {
    count: u64,
    closed: bool,
}

/// A queue with a fixed number of places.
#[derive(Drop)]
pub struct Handover<T> {
    ring: RuledArrayQueue<T, Share<T>, Balance>,
    moves: Mutex<Moves>,
    moved: Condvar,
}

impl<T> Handover<T> {
    /// An empty queue with so many places, and the account with every part.
    pub fn new(alloc: Global, places: usize) -> Result<(Handover<T>, Account<T>), AllocError>
        requires { 0 < places }
        ensures places { IfOk result (λ q. ruled_capacity q.0.ring ≡ places) }
        ensures account { IfOk result (λ q. IsPassOf q.0.ring q.1) }
        ensures empty { IfOk result (λ q. view q.1 ≡ share ALL_PARTS [] []) }
    {
        let (ring, account) = RuledArrayQueue::ruled(alloc, places)?;
        let moves = Mutex::new(Moves {
            count: 0,
            closed: false,
        });
        let queue = Handover {
            ring,
            moves,
            moved: Condvar::new(),
        };
        Ok((queue, account))
    }

    /// A new account, with one of the parts of this one. It shows nothing yet.
    pub fn open(&self, account: &mut Account<T>) -> Account<T>
        requires queue { IsPassOf self.now.ring account.old }
        requires parts { 1 < (view account.old).parts }
        ensures queue { IsPassOf self.now.ring account.new × IsPassOf self.now.ring result }
        ensures rest { view account.new ≡ share ((view account.old).parts - 1) (view account.old).put (view account.old).taken }
        ensures opened { view result ≡ share 1 [] [] }
    {
        self.ring.another::<Opening>(account)
    }

    /// An account takes over what another shows, and its parts.
    pub fn settle(&self, account: &mut Account<T>, other: Account<T>)
        requires queue { IsPassOf self.now.ring account.old × IsPassOf self.now.ring other }
        requires parts { 0 < (view account.old).parts }
        ensures queue { IsPassOf self.now.ring account.new }
        ensures both { view account.new ≡ share ((view account.old).parts + (view other).parts) ((view account.old).put ++ (view other).put) ((view account.old).taken ++ (view other).taken) }
    {
        self.ring.absorb::<Settling>(account, other);
    }

    /// Puts an item, and wakes whoever waits. It comes back only if every place was taken at one moment of the call.
    pub fn put<R: Wait>(&self, rt: &R, account: &mut Account<T>, item: T) -> Result<(), T>
        requires queue { IsPassOf self.now.ring account.old }
        requires parts { 0 < (view account.old).parts }
        ensures queue { IsPassOf self.now.ring account.new }
        ensures put { MatchResult result (λ _. view account.new ≡ with_put (view account.old) item)
            (λ x. (x ≡ item) × (view account.new ≡ view account.old) × Held (ruled_capacity self.now.ring) (Learned (view account.old))) }
    {
        self.ring.push_as::<Puts, R>(rt, account, item)?;
        self.tell(rt);
        Ok(())
    }

    /// Takes the oldest item. `None` comes only if the queue was empty at one moment of the call.
    pub fn take<R: Wait>(&self, rt: &R, account: &mut Account<T>) -> Option<T>
        requires queue { IsPassOf self.now.ring account.old }
        requires parts { 0 < (view account.old).parts }
        ensures queue { IsPassOf self.now.ring account.new }
        ensures taken { MatchOption result ((view account.new ≡ view account.old) × Held 0 (Learned (view account.old)))
            (λ x. view account.new ≡ with_taken (view account.old) x) }
    {
        self.ring.pop_as::<Takes, R>(rt, account)
    }

    /// Takes the oldest item, and waits for one, asleep, until the end is told and the queue is empty.
    pub fn wait<R: Wait>(&self, rt: &R, account: &mut Account<T>) -> Option<T>
        requires queue { IsPassOf self.now.ring account.old }
        requires parts { 0 < (view account.old).parts }
        ensures queue { IsPassOf self.now.ring account.new }
        ensures taken { MatchOption result (view account.new ≡ view account.old) (λ x. view account.new ≡ with_taken (view account.old) x) }
    {
        let mut closed = false;
        for _ in rt.forever() {
            let seen = self.count(rt);
            if let Some(item) = self.take(rt, account) {
                return Some(item);
            }
            if closed {
                return None;
            }
            closed = self.wait_past(rt, seen);
        }
        unreachable!()
    }

    /// Tells the end: no more is put, and whoever waits goes on.
    pub fn close<R: Wait>(&self, rt: &R) {
        let mut moves = self.moves.lock(rt);
        moves.closed = true;
        self.moved.notify_all();
    }

    // Tells of an item that was put.
    fn tell<R: Wait>(&self, rt: &R) {
        let mut moves = self.moves.lock(rt);
        moves.count = moves.count.wrapping_add(1);
        self.moved.notify_one();
    }

    // What a thread remembers before it looks.
    fn count<R: Wait>(&self, rt: &R) -> u64 {
        self.moves.lock(rt).count
    }

    // Waits until something was put since then, or the end is told. True at the end.
    fn wait_past<R: Wait>(&self, rt: &R, seen: u64) -> bool {
        let moves = self.moved.wait_while(rt, self.moves.lock(rt), |m| {
            m.count == seen && !m.closed
        });
        moves.closed
    }

    /// What is known once all accounts are settled into one: each item that it put was taken, or is in the queue.
    pub fn whole(&self, account: &mut Account<T>)
        requires queue { IsPassOf self.now.ring account.old }
        requires parts { 0 < (view account.old).parts }
        ensures same { IsPassOf self.now.ring account.new × (view account.new ≡ view account.old) }
        ensures whole { (items : _) × Learned (view account.old) items }
    {
        self.ring.learn_as::<Takes>(account);
    }
}
