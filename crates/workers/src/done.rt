//! What comes of a task.
use crate::task::Task;
use answers::Answer;
use outer::{Matcher, Sink};
use shared_buffer::Hand;
use std::snapshot::Snapshot as Shown;

/// A task that is done: its numbers, the version of its text, the hand of its snapshot, and one answer for each read, in
/// their order. The version is `None` where there was no memory to open the snapshot; then every answer is `NoMemory`.
/// The hand is `None` where it was handed to the session already.
pub struct Done<M: Matcher, K: Sink> {
    pub session: u32,
    pub number: u32,
    pub version: Option<u64>,
    pub hand: Option<Hand>,
    pub answers: Vec<Answer<K>>,
    /// The task, which only contracts see. It has no bytes.
    pub task: Shown<Task<M, K>>,
}
