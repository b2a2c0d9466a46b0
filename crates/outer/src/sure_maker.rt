//! A maker of literal matchers that never refuses: a caller of the trait is proved to answer no refusal over it.
ghost use Rattle.std.specs.Prelude.{◌≡◌, Some, None, Err, MatchResult};
ghost use Rattle.outer.specs.Literal.{literal_hits};

use crate::literal::LiteralMatcher;
use crate::pattern_maker::{MakeRefusal, PatternMaker};
use std::alloc::Global;

/// A maker of matchers of literal hits that never refuses: its count of refusals is always 0. The matcher of an empty
/// pattern has no hits.
#[derive(Debug, Drop)]
pub struct SureMaker;

impl SureMaker {
    /// The maker. It takes no memory.
    pub fn new() -> Self {
        SureMaker
    }
}

impl PatternMaker for SureMaker {
    type M = LiteralMatcher;

    ghost hits = { λ _ pattern. Some (literal_hits pattern) };

    ghost refusals = { λ _. 0 };

    ghost refused = { λ _. None };

    fn make(&mut self, alloc: Global, pattern: &str) -> Result<LiteralMatcher, MakeRefusal>
        ensures made { MatchResult result (λ matcher. matcher ≡ pattern.now) (λ refusal. refusal ≡ MakeRefusal.NoMemory) }
    {
        let copy = String::from_str(alloc, pattern)?;
        Ok(LiteralMatcher::new(copy))
    }
}
