//! Tasks, and how one is done.
ghost use Rattle.std.specs.Prelude.{◌≡◌, Some, map, IfOk, IfErr};
ghost use Rattle.answers.specs.Asks.{ask, CanAskAll};
ghost use Rattle.workers.specs.Entries.{IsDone};

use crate::done::Done;
use answers::{Answer, Read, answer_all, refuse_all};
use gates::Gate;
use outer::{Matcher, Sink};
use points::NoMemory;
use shared_buffer::{PlainBuffer, SharedBuffer, Snapshot};
use std::alloc::Global;
use std::marker::Model;
use std::snapshot::Snapshot as Shown;
use std::sync::Wait;

/// A snapshot with the reads to be answered on it, under the number of its session and a number of its own. It holds the
/// room for its answers. It must be run, or retired.
pub struct Task<M: Matcher, K: Sink> {
    session: u32,
    number: u32,
    snapshot: Snapshot,
    reads: Vec<Read<M, K>>,
    room: Vec<Answer<K>>,
}

impl<M: Matcher, K: Sink> Model for Task<M, K> {
    ghost use Rattle.std.specs.Prelude.{◌≡◌, ◌≤◌, [], map, vec_len, vec_capacity};
    ghost use Rattle.answers.specs.Asks.{ask, CanAskAll};
    ghost use Rattle.workers.specs.Tasks.{Request};

    ghost Value = { Request M K };

    ghost view = { λ t. record { session = t.session; number = t.number; reads = t.reads.items; front = t.snapshot } };

    ghost invariant = { λ t. CanAskAll t.snapshot.reader.text (map (ask M.tells K.taken K.faults) t.reads.items) × (t.room.items ≡ []) × (vec_len t.reads ≤ vec_capacity t.room) };
}

impl<M: Matcher, K: Sink> Task<M, K> {
    /// A task with this snapshot and these reads. It takes the room for the answers; an `Err` is want of memory, and hands
    /// both back.
    pub fn new(
        alloc: Global,
        session: u32,
        number: u32,
        snapshot: Snapshot,
        reads: Vec<Read<M, K>>,
    ) -> Result<Task<M, K>, (Snapshot, Vec<Read<M, K>>)>
        requires { CanAskAll snapshot.reader.text (map (ask M.tells K.taken K.faults) reads.items) }
        ensures ok { IfOk result (λ t. t ≡ record { session = session; number = number; reads = reads.items; front = snapshot }) }
        ensures err { IfErr result (λ back. (back.0 ≡ snapshot) × (back.1 ≡ reads)) }
    {
        match Vec::with_capacity(alloc, reads.len()) {
            Ok(room) => Ok(Task {
                session,
                number,
                snapshot,
                reads,
                room,
            }),
            Err(_) => Err((snapshot, reads)),
        }
    }
}

impl<M: Matcher, K: Sink + Drop> Task<M, K> {
    /// Spends the task without running it. The hand of its snapshot stays out for good.
    pub fn retire(self) {
        let Task {
            session: _,
            number: _,
            snapshot,
            reads,
            room,
        } = self;
        snapshot.retire();
        drop(reads);
        drop(room);
    }
}

/// A task on its way, in a queue that may be let go with what it holds: the task is retired then.
pub struct Sent<M: Matcher, K: Sink + Drop> {
    task: Task<M, K>,
}

impl<M: Matcher, K: Sink + Drop> Model for Sent<M, K> {
    ghost use Rattle.workers.specs.Tasks.{Request};

    ghost Value = { Request M K };

    ghost view = { λ s. s.task };
}

impl<M: Matcher, K: Sink + Drop> Sent<M, K> {
    /// The task, on its way.
    pub fn new(task: Task<M, K>) -> Sent<M, K>
        ensures { result ≡ task }
    {
        Sent { task }
    }

    /// The task, to be run.
    pub fn open(self) -> Task<M, K>
        ensures { result ≡ self }
    {
        let Sent { task } = self;
        task
    }
}

impl<M: Matcher, K: Sink + Drop> Drop for Sent<M, K> {
    fn drop(self) {
        let Sent { task } = self;
        let Task {
            session: _,
            number: _,
            snapshot,
            reads,
            room,
        } = task;
        snapshot.retire();
        drop(reads);
        drop(room);
    }
}

/// Runs a task: between the gate's `enter` and `leave` it opens the snapshot, answers the reads on it and gives it up.
pub fn run_task<B: PlainBuffer + Send, M: Matcher, K: Sink + Drop, G: Gate, R: Wait>(
    rt: &R,
    alloc: Global,
    buffer: &SharedBuffer<B>,
    gate: &G,
    task: Task<M, K>,
) -> Done<M, K>
    ensures task { result.task.value ≡ task }
    ensures done { IsDone M.tells K.taken K.faults result }
    ensures hand { result.hand ≡ Some task.front.hand }
{
    let shown = Shown::of(&task);
    let Task {
        session,
        number,
        snapshot,
        reads,
        room,
    } = task;
    gate.enter(rt, number);
    let (version, answers) = match buffer.open_snapshot(&snapshot) {
        Ok(reader) => (
            Some(snapshot.version),
            answer_all(alloc, &reader, reads, room),
        ),
        Err(NoMemory) => (None, refuse_all(reads, room)),
    };
    let hand = buffer.release(snapshot);
    gate.leave(rt, number);
    Done {
        session,
        number,
        version,
        hand: Some(hand),
        answers,
        task: shown,
    }
}
