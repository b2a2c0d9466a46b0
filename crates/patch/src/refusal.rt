//! Why a list of changes is no patch, and why a patch isn't changed or made.
ghost use Rattle.std.specs.Prelude.{◌≡◌};
ghost use Rattle.patch.specs.declared.refusal.PatchRefusal.TheVariants.{NoMemory as no_memory};

use points::NoMemory;
use thiserror::Error;

/// Why a list of changes is no patch: the lowest rule that it breaks, at the first index where it
/// breaks one.
#[derive(Clone, Copy, Debug, PartialEq, Eq, Error)]
pub enum ListRefusal {
    /// A start stands before the end of the change before it, on the old or the new side.
    #[error("change {at} isn't behind the one before it")]
    NotSorted { at: usize },
    /// Its old start is the old end of the change before it.
    #[error("change {at} touches the one before it")]
    NotApart { at: usize },
    /// A text's extent isn't its range's, or the stretch since the change before it has not the
    /// same extent on both sides.
    #[error("change {at} has ranges that don't fit its texts or the changes before it")]
    ExtentMismatch { at: usize },
    /// Both texts are empty.
    #[error("change {at} is empty")]
    EmptyChange { at: usize },
    /// A row or a column passes [`MAX_COORD`](points::MAX_COORD).
    #[error("change {at} is too far")]
    TooFar { at: usize },
    /// Its index is [`MAX_CHANGES`](crate::MAX_CHANGES).
    #[error("there are too many changes")]
    TooMany { at: usize },
    /// There was no memory for it.
    #[error("out of memory")]
    NoMemory,
}

/// Why a patch isn't changed.
#[derive(Clone, Copy, Debug, PartialEq, Eq, Error)]
pub enum PatchRefusal {
    /// A coordinate of the result would pass [`MAX_COORD`](points::MAX_COORD).
    #[error("a change would reach too far")]
    TooFar,
    /// The result would have more than [`MAX_CHANGES`](crate::MAX_CHANGES) changes.
    #[error("there would be too many changes")]
    TooMany,
    /// There was no memory for it.
    #[error("out of memory")]
    NoMemory,
}

impl From<NoMemory> for PatchRefusal {
    ghost from_gives = { λ _ refusal. refusal ≡ no_memory };

    fn from(_refusal: NoMemory) -> Self {
        PatchRefusal::NoMemory
    }
}
