//! A sink in memory that fails at the calls that a test names, and past its room.
ghost use Rattle.std.specs.Prelude.{◌≡◌, ◌≤◌, ◌+◌, ◌||◌, [], ◌++◌, length, nat_lt, Some, is_err};
ghost use Rattle.std.specs.Prelude.{IfOk, OnOk, OnErr};
ghost use Rattle.outer.specs.Count.{Rose};
ghost use Rattle.outer.specs.Plan.{plan_of, is_due, after_call};

use crate::failed::Failed;
use crate::plan::Plan;
use crate::sink::Sink;
use crate::store::Store;
use points::NoMemory;
use std::alloc::Global;
use std::marker::Model;

/// A sink into memory, which tells its bytes and fails at the calls that a test names.
///
/// The n-th call, from 1, puts and flushes together, fails exactly where n is in its list or it is a
/// put past the room. A put that fails takes nothing. The memory is taken at the start, and no call
/// takes more.
#[derive(Debug, Drop)]
pub struct MemSink {
    store: Store,
    plan: Plan,
}

impl Model for MemSink {
    ghost use Rattle.outer.specs.Memory.{PlannedSink};

    ghost Value = { PlannedSink };

    ghost view = { λ s. record { taken = s.store.taken; room = s.store.room; plan = s.plan } };
}

impl MemSink {
    /// A sink with no bytes, which takes at most `room` of them, and whose calls with these numbers fail.
    pub fn new(alloc: Global, room: usize, fails: Vec<u64>) -> Result<Self, NoMemory>
        ensures { IfOk result (λ s. s ≡ record { taken = []; room = room; plan = plan_of fails.items }) }
    {
        Ok(MemSink {
            store: Store::new(alloc, room)?,
            plan: Plan::new(fails),
        })
    }

    /// The bytes that it took.
    pub fn bytes(&self) -> &[u8]
        ensures { result.now ≡ self.now.taken }
    {
        self.store.as_slice()
    }

    /// The bytes that it took, over the same memory.
    pub(crate) fn into_bytes(self) -> Vec<u8>
        ensures { result.items ≡ self.taken }
    {
        let MemSink { store, plan: _ } = self;
        store.into_bytes()
    }

    /// Whether a call failed.
    pub(crate) fn has_failed(&self) -> bool
        ensures { result ≡ nat_lt 0 self.now.plan.faults }
    {
        self.plan.has_faults()
    }
}

impl Sink for MemSink {
    ghost taken = { λ s. Some s.taken };

    ghost faults = { λ s. s.plan.faults };

    fn put(&mut self, bytes: &[u8]) -> Result<(), Failed>
        ensures fails { is_err result ≡ (is_due self.old.plan
            || nat_lt self.old.room (length self.old.taken + length bytes.now)) }
        ensures plan { self.new.plan ≡ after_call self.old.plan (is_err result) }
        ensures count { self.old.plan.faults ≤ self.new.plan.faults }
        ensures cause { OnErr result (Rose self.old.plan.faults self.new.plan.faults) }
        ensures ok { OnOk result (self.new.taken ≡ self.old.taken ++ bytes.now) }
        ensures err { OnErr result (self.new.taken ≡ self.old.taken) }
        ensures room { self.new.room ≡ self.old.room }
    {
        if self.plan.count_call() || !self.store.append(bytes) {
            self.plan.count_fault();
            return Err(Failed);
        }
        Ok(())
    }

    fn flush(&mut self) -> Result<(), Failed>
        ensures fails { is_err result ≡ is_due self.old.plan }
        ensures plan { self.new.plan ≡ after_call self.old.plan (is_err result) }
        ensures count { self.old.plan.faults ≤ self.new.plan.faults }
        ensures cause { OnErr result (Rose self.old.plan.faults self.new.plan.faults) }
        ensures taken { self.new.taken ≡ self.old.taken }
        ensures room { self.new.room ≡ self.old.room }
    {
        if self.plan.count_call() {
            self.plan.count_fault();
            return Err(Failed);
        }
        Ok(())
    }
}
