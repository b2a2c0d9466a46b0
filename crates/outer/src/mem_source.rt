//! A source in memory that fails at the calls that a test names.
ghost use Rattle.std.specs.Prelude.{◌≡◌, ◌≤◌, ◌++◌, length, min, take, drop, Some, is_err, nat_lt, IfOk, OnErr};
ghost use Rattle.outer.specs.Count.{Rose};
ghost use Rattle.outer.specs.Plan.{plan_of, is_due, after_call};

use crate::failed::Failed;
use crate::plan::Plan;
use crate::remaining::Remaining;
use crate::source::Source;
use std::marker::Model;

/// A source over bytes in memory, which tells them and fails at the calls that a test names.
///
/// The n-th call, from 1, fails exactly where n is in its list. Each other call gives as many bytes
/// as there are and fit.
#[derive(Debug, Drop)]
pub struct MemSource {
    left: Remaining,
    plan: Plan,
}

impl Model for MemSource {
    ghost use Rattle.outer.specs.Memory.{PlannedSource};

    ghost Value = { PlannedSource };

    ghost view = { λ s. record { left = s.left; plan = s.plan } };
}

impl MemSource {
    /// A source of these bytes, whose calls with these numbers fail. It takes no memory.
    pub fn new(bytes: Vec<u8>, fails: Vec<u64>) -> Self
        ensures { result ≡ record { left = bytes.items; plan = plan_of fails.items } }
    {
        MemSource {
            left: Remaining::new(bytes),
            plan: Plan::new(fails),
        }
    }

    /// Whether a read failed.
    pub(crate) fn has_failed(&self) -> bool
        ensures { result ≡ nat_lt 0 self.now.plan.faults }
    {
        self.plan.has_faults()
    }
}

impl Source for MemSource {
    ghost left = { λ s. Some s.left };

    ghost faults = { λ s. s.plan.faults };

    fn read(&mut self, into: &mut [u8]) -> Result<usize, Failed>
        ensures fails { is_err result ≡ is_due self.old.plan }
        ensures plan { self.new.plan ≡ after_call self.old.plan (is_err result) }
        ensures count { self.old.plan.faults ≤ self.new.plan.faults }
        ensures cause { OnErr result (Rose self.old.plan.faults self.new.plan.faults) }

        ensures ok { IfOk result (λ n. n ≡ min (length into.old) (length self.old.left)) }
        ensures into { IfOk result (λ n. into.new ≡ take n self.old.left ++ drop n into.old) }
        ensures left { IfOk result (λ n. self.new.left ≡ drop n self.old.left) }

        ensures err_into { OnErr result (into.new ≡ into.old) }
        ensures err_left { OnErr result (self.new.left ≡ self.old.left) }
    {
        if self.plan.count_call() {
            self.plan.count_fault();
            return Err(Failed);
        }
        Ok(self.left.give(into))
    }
}
