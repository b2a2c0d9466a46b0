//! Why a part of a transcript wasn't read.
ghost use Rattle.std.specs.Prelude.{◌≡◌};
ghost use Rattle.transcripts.specs.declared.misfit.Misfit.TheVariants.{NoMemory};

use std::alloc::{AllocError, AllocFailed};

/// Why a part wasn't read.
#[derive(Drop)]
pub(crate) enum Misfit {
    /// The value has another form.
    Form,
    NoMemory,
}

impl From<AllocError> for Misfit {
    ghost from_gives = { λ _ misfit. misfit ≡ NoMemory };

    fn from(_error: AllocError) -> Self {
        Misfit::NoMemory
    }
}

impl<T: Drop> From<AllocFailed<T>> for Misfit {
    ghost from_gives = { λ _ misfit. misfit ≡ NoMemory };

    fn from(_failed: AllocFailed<T>) -> Self {
        Misfit::NoMemory
    }
}
