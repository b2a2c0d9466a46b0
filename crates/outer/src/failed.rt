//! The one fault of the outside world.
use thiserror::Error;

/// A fault of the outside world: a read, a write or a flush that didn't succeed.
#[derive(Clone, Copy, Debug, PartialEq, Eq, Error)]
#[error("outside fault")]
pub struct Failed;
