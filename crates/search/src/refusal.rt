//! Why a search is refused.
ghost use Rattle.std.specs.Prelude.{◌≡◌};
ghost use Rattle.search.specs.declared.refusal.FindRefusal.TheVariants.{NoMemory as no_memory};

use points::NoMemory;
use thiserror::Error;

/// Why a text was not searched for a literal.
#[derive(Clone, Copy, Debug, PartialEq, Eq, Error)]
pub enum FindRefusal {
    /// The literal is empty.
    #[error("the needle is empty")]
    EmptyNeedle,
    /// There was no memory for it.
    #[error("out of memory")]
    NoMemory,
}

impl From<NoMemory> for FindRefusal {
    ghost from_gives = { λ _ refusal. refusal ≡ no_memory };

    fn from(_refusal: NoMemory) -> Self {
        FindRefusal::NoMemory
    }
}
