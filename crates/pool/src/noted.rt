//! What a port remembers of what was sent.
use outer::{Matcher, Sink};
use std::snapshot::Snapshot as Shown;
use workers::Task;

// A task that was sent, which only contracts see, and whether the session ran it.
#[derive(Drop)]
pub(crate) struct Noted<M: Matcher, K: Sink> {
    pub(crate) task: Shown<Task<M, K>>,
    pub(crate) here: bool,
}
