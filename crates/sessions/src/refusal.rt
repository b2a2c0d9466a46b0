//! Why a run has no end.
ghost use Rattle.std.specs.Prelude.{◌≡◌};
ghost use Rattle.shared_buffer.specs.declared.shared.Refusal.TheVariants.{Spent as was_spent};
ghost use Rattle.sessions.specs.declared.refusal.RunRefusal.TheVariants.{NoMemory as no_memory, Spent as spent};

use points::NoMemory;
use shared_buffer::Refusal;
use std::alloc::{AllocError, AllocFailed};
use thiserror::Error;

/// Why sessions have no answer.
#[derive(Clone, Copy, Debug, PartialEq, Eq, Error)]
pub enum RunRefusal {
    /// No number was left for a call.
    #[error("no number is left")]
    Spent,
    /// There was no memory.
    #[error("out of memory")]
    NoMemory,
}

impl From<NoMemory> for RunRefusal {
    ghost from_gives = { λ _ refusal. refusal ≡ no_memory };

    fn from(_refusal: NoMemory) -> Self {
        RunRefusal::NoMemory
    }
}

impl From<AllocError> for RunRefusal {
    ghost from_gives = { λ _ refusal. refusal ≡ no_memory };

    fn from(_error: AllocError) -> Self {
        RunRefusal::NoMemory
    }
}

impl<T: Drop> From<AllocFailed<T>> for RunRefusal {
    ghost from_gives = { λ _ refusal. refusal ≡ no_memory };

    fn from(_failed: AllocFailed<T>) -> Self {
        RunRefusal::NoMemory
    }
}

impl From<Refusal> for RunRefusal {
    ghost from_gives = { λ no refusal. (no ≡ was_spent → refusal ≡ spent) × (refusal ≡ spent → no ≡ was_spent) };

    fn from(refusal: Refusal) -> Self {
        match refusal {
            Refusal::Spent => RunRefusal::Spent,
            Refusal::NoMemory => RunRefusal::NoMemory,
        }
    }
}
