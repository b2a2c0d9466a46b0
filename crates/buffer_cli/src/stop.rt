//! Why a run of a script's commands ends before the last.
ghost use Rattle.std.specs.Prelude.{◌≡◌};
ghost use Rattle.buffer_cli.specs.declared.stop.Stop.TheVariants as stop;

use codecs::SaveFault;
use points::NoMemory;
use std::alloc::{AllocError, AllocFailed};

/// Why the commands of a session weren't all answered.
#[derive(Clone, Copy, Debug, PartialEq, Eq)]
pub(crate) enum Stop {
    /// The sink of a save failed.
    SaveFault,
    NoMemory,
}

impl From<SaveFault> for Stop {
    ghost from_gives = { λ _ why. why ≡ stop.SaveFault };

    fn from(_fault: SaveFault) -> Self {
        Stop::SaveFault
    }
}

impl From<NoMemory> for Stop {
    ghost from_gives = { λ _ why. why ≡ stop.NoMemory };

    fn from(_refusal: NoMemory) -> Self {
        Stop::NoMemory
    }
}

impl From<AllocError> for Stop {
    ghost from_gives = { λ _ why. why ≡ stop.NoMemory };

    fn from(_error: AllocError) -> Self {
        Stop::NoMemory
    }
}

impl<T: Drop> From<AllocFailed<T>> for Stop {
    ghost from_gives = { λ _ why. why ≡ stop.NoMemory };

    fn from(_failed: AllocFailed<T>) -> Self {
        Stop::NoMemory
    }
}
