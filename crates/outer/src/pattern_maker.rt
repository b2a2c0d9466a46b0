//! Makers of matchers. A maker may tell the hits of each pattern (`hits`), and the pattern that it refused last
//! (`refused`).
ghost use Rattle.std.specs.Prelude.{◌≡◌, ℕ, ◌≤◌, List, Option, IfOk, IfSome, IsErrOf};
ghost use Rattle.outer.specs.Count.{Rose};
ghost use Rattle.outer.specs.Matcher.{ToldHits};
ghost use Rattle.outer.specs.declared.pattern_maker.MakeRefusal.TheVariants.{NoMemory as no_memory};

use crate::matcher::Matcher;
use points::NoMemory;
use std::alloc::{AllocError, Global};
use thiserror::Error;

/// Why a maker made no matcher.
#[derive(Clone, Copy, Debug, PartialEq, Eq, Error)]
pub enum MakeRefusal {
    /// It makes none of this pattern.
    #[error("the pattern was refused")]
    Refused,
    /// There was no memory for it.
    #[error("out of memory")]
    NoMemory,
}

impl From<NoMemory> for MakeRefusal {
    ghost from_gives = { λ _ refusal. refusal ≡ no_memory };

    fn from(_refusal: NoMemory) -> Self {
        MakeRefusal::NoMemory
    }
}

impl From<AllocError> for MakeRefusal {
    ghost from_gives = { λ _ refusal. refusal ≡ no_memory };

    fn from(_error: AllocError) -> Self {
        MakeRefusal::NoMemory
    }
}

/// What makes matchers of patterns.
pub trait PatternMaker: Drop {
    type M: Matcher;

    /// The hits of a pattern in each text, where the maker tells them. No call changes them.
    ghost hits: { Self → List ℕ → Option ToldHits };

    /// How many patterns were refused. It never falls, and stands still at 2^64 - 1.
    ghost refusals: { Self → ℕ };

    /// The pattern that was refused last, where the maker tells it.
    ghost refused: { Self → Option (List ℕ) };

    /// A matcher of the pattern. It tells the hits that the maker tells.
    fn make(&mut self, alloc: Global, pattern: &str) -> Result<Self::M, MakeRefusal>
        ensures same { hits self.new ≡ hits self.old }
        ensures count { refusals self.old ≤ refusals self.new }
        ensures made { IfOk result (λ matcher. Self.M.tells matcher ≡ hits self.old pattern.now) }
        ensures cause { IsErrOf result MakeRefusal.Refused → Rose (refusals self.old) (refusals self.new) }
        ensures refused { IsErrOf result MakeRefusal.Refused → IfSome (refused self.new) (λ last. last ≡ pattern.now) };
}
