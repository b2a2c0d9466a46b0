//! Why a call on marks was refused.
use thiserror::Error;

/// Why a mark was not inserted.
#[derive(Clone, Copy, Debug, PartialEq, Eq, Error)]
pub enum MarkerRefusal {
    /// There is a mark with this id.
    #[error("there is a mark with this id")]
    MarkTaken,
    /// There are [`MAX_MARKS`](crate::MAX_MARKS) marks.
    #[error("there are too many marks")]
    MarksFull,
    /// There was no memory for it.
    #[error("out of memory")]
    NoMemory,
}

/// There is no mark with this id.
#[derive(Clone, Copy, Debug, PartialEq, Eq, Error)]
#[error("there is no mark with this id")]
pub struct MarkUnknown;
