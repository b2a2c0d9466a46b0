//! The plan of a fake: which of its calls fail, by their numbers.
ghost use Rattle.std.specs.Prelude.{◌≡◌, ◌+◌, ◌≤◌, ◌==◌, nat_lt};
ghost use Rattle.std.specs.List.{list_any};
ghost use Rattle.outer.specs.Count.{Rose};
ghost use Rattle.outer.specs.Plan.{plan_of, is_due, with_call, with_fault};

use std::marker::Model;

/// Which calls of a fake fail, by their numbers from 1, and how many calls and faults there were.
///
/// Both counts stand still at 2^64 - 1. The next call's number is one more than the count of calls, so
/// that behind call 2^64 - 1 it is 2^64, which no list holds: those calls don't fail.
#[derive(Debug, Drop)]
pub(crate) struct Plan {
    fails: Vec<u64>,
    calls: u64,
    faults: u64,
}

impl Model for Plan {
    ghost use Rattle.outer.specs.Plan.{Plan};

    ghost Value = { Plan };

    ghost view = { λ p. record { fails = p.fails.items; calls = p.calls; faults = p.faults } };
}

impl Plan {
    /// A plan by which the calls with these numbers fail, before any call.
    pub(crate) fn new(fails: Vec<u64>) -> Self
        ensures { result ≡ plan_of fails.items }
    {
        Plan {
            fails,
            calls: 0,
            faults: 0,
        }
    }

    /// Counts a call, and tells whether it is one of those that fail.
    pub(crate) fn count_call(&mut self) -> bool
        ensures due { result ≡ is_due self.old }
        ensures counted { self.new ≡ with_call self.old }
    {
        let due = self.is_next_due();
        self.calls = self.calls.saturating_add(1);
        due
    }

    /// Whether the next call is one of those that fail.
    pub(crate) fn is_next_due(&self) -> bool
        ensures { result ≡ is_due self.now }
    {
        has_next(&self.fails, self.calls)
    }

    /// Whether there was a fault.
    pub(crate) fn has_faults(&self) -> bool
        ensures { result ≡ nat_lt 0 self.now.faults }
    {
        self.faults > 0
    }

    /// Counts a fault.
    pub(crate) fn count_fault(&mut self)
        ensures counted { self.new ≡ with_fault self.old }
        ensures rose { Rose self.old.faults self.new.faults }
        ensures grows { self.old.faults ≤ self.new.faults }
    {
        self.faults = self.faults.saturating_add(1);
    }
}

// Tells whether the number of the call behind so many calls is in the list.
fn has_next(fails: &[u64], calls: u64) -> bool
    ensures { result ≡ list_any (λ n. n == calls + 1) fails.now }
{
    match calls.checked_add(1) {
        Some(number) => fails.contains(&number),
        None => false,
    }
}
