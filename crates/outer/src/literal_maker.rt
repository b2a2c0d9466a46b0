//! A maker of literal matchers that fails at the calls that a test names.
ghost use Rattle.std.specs.Prelude.{◌≡◌, ◌≤◌, true, false, Some, None, Ok, IfOk, IsErrOf, IsOk, is_ok, option_copied, option_map, string_bytes};
ghost use Rattle.outer.specs.Count.{Rose};
ghost use Rattle.outer.specs.Plan.{plan_of};
ghost use Rattle.outer.specs.Literal.{literal_hits, refuses, after_make};

use crate::literal::LiteralMatcher;
use crate::pattern_maker::{MakeRefusal, PatternMaker};
use crate::plan::Plan;
use std::alloc::Global;
use std::marker::Model;

/// A maker of matchers of literal hits, which refuses an empty pattern, and any pattern at the calls that a test names.
///
/// The n-th call, from 1, refuses where n is in its list. A call that has no memory doesn't count.
#[derive(Debug, Drop)]
pub struct LiteralMaker {
    plan: Plan,
    refused: Option<String>,
}

impl Model for LiteralMaker {
    ghost use Rattle.std.specs.Prelude.{option_map, string_bytes};
    ghost use Rattle.outer.specs.Literal.{PlannedMaker};

    ghost Value = { PlannedMaker };

    ghost view = { λ m. record { plan = m.plan; refused = option_map string_bytes m.refused } };
}

impl LiteralMaker {
    /// A maker whose calls with these numbers refuse. It takes no memory.
    pub fn new(fails: Vec<u64>) -> Self
        ensures { result ≡ record { plan = plan_of fails.items; refused = None } }
    {
        LiteralMaker {
            plan: Plan::new(fails),
            refused: None,
        }
    }
}

impl PatternMaker for LiteralMaker {
    type M = LiteralMatcher;

    ghost hits = { λ _ pattern. Some (literal_hits pattern) };

    ghost refusals = { λ m. m.plan.faults };

    ghost refused = { λ m. m.refused };

    fn make(&mut self, alloc: Global, pattern: &str) -> Result<LiteralMatcher, MakeRefusal>
        ensures count { self.old.plan.faults ≤ self.new.plan.faults }
        ensures cause { IsErrOf result MakeRefusal.Refused → Rose self.old.plan.faults self.new.plan.faults }
        ensures made { IfOk result (λ matcher. matcher ≡ pattern.now) }
        ensures ok { IsOk result → refuses self.old pattern.now ≡ false }
        ensures refused { IsErrOf result MakeRefusal.Refused → refuses self.old pattern.now ≡ true }
        ensures state { ¬ IsErrOf result MakeRefusal.NoMemory → self.new ≡ after_make self.old pattern.now }
        ensures memory { IsErrOf result MakeRefusal.NoMemory → self.new ≡ self.old }
    {
        let copy = String::from_str(alloc, pattern)?;
        if self.plan.count_call() || pattern.is_empty() {
            self.plan.count_fault();
            self.refused = Some(copy);
            return Err(MakeRefusal::Refused);
        }
        Ok(LiteralMatcher::new(copy))
    }
}
