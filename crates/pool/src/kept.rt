//! What comes of tasks while threads run.
ghost use Rattle.std.specs.Prelude.{◌≡◌, IsNone, Some};
ghost use Rattle.pool.specs.Sendings.{IsEnded, queued, run_here, sending_of};

use answers::Answer;
use gates::Gate;
use outer::{Matcher, Sink};
use shared_buffer::{Hand, PlainBuffer, SharedBuffer};
use std::alloc::Global;
use std::marker::Model;
use std::sync::Wait;
use workers::{Done, Task, run_task};

// A task that is done. Where it is let go, its hand is retired.
pub(crate) struct Kept<M: Matcher, K: Sink + Drop> {
    done: Done<M, K>,
}

impl<M: Matcher, K: Sink + Drop> Model for Kept<M, K> {
    ghost use Rattle.workers.specs.declared.done.Done.{Done};

    ghost Value = { Done M K };

    ghost view = { λ k. k.done };
}

impl<M: Matcher, K: Sink + Drop> Kept<M, K> {
    pub(crate) fn new(done: Done<M, K>) -> Kept<M, K>
        ensures { result ≡ done }
    {
        Kept { done }
    }

    pub(crate) fn open(self) -> Done<M, K>
        ensures { result ≡ self }
    {
        let Kept { done } = self;
        done
    }
}

impl<M: Matcher, K: Sink + Drop> Drop for Kept<M, K> {
    fn drop(self) {
        let Kept { done } = self;
        let Done {
            session: _,
            number: _,
            version: _,
            hand,
            answers,
            task: _,
        } = done;
        drop(answers);
        if let Some(hand) = hand {
            hand.retire();
        }
    }
}

// Runs a task, and keeps the hand of its snapshot with what comes of it.
pub(crate) fn run_for_another<B: PlainBuffer + Send, M: Matcher, K: Sink + Drop, G: Gate, R: Wait>(
    rt: &R,
    alloc: Global,
    buffer: &SharedBuffer<B>,
    gate: &G,
    task: Task<M, K>,
) -> Kept<M, K>
    ensures task { sending_of result ≡ queued task }
    ensures ended { IsEnded M.tells K.taken K.faults result }
{
    Kept::new(run_task(rt, alloc, buffer, gate, task))
}

// Runs a task, and hands out the hand of its snapshot.
pub(crate) fn run_at_once<B: PlainBuffer + Send, M: Matcher, K: Sink + Drop, G: Gate, R: Wait>(
    rt: &R,
    alloc: Global,
    buffer: &SharedBuffer<B>,
    gate: &G,
    task: Task<M, K>,
) -> (Kept<M, K>, Hand)
    ensures task { sending_of result.0 ≡ run_here task }
    ensures ended { IsEnded M.tells K.taken K.faults result.0 }
    ensures hand { result.1 ≡ task.front.hand }
{
    let (done, hand) = without_hand(run_task(rt, alloc, buffer, gate, task));
    (Kept::new(done), hand)
}

// Takes the hand out of what comes of a task.
fn without_hand<M: Matcher, K: Sink>(done: Done<M, K>) -> (Done<M, K>, Hand)
    requires { done.hand ≡ Some done.task.value.front.hand }
    ensures hand { done.hand ≡ Some result.1 }
    ensures none { IsNone result.0.hand }
    ensures task { result.0.task ≡ done.task }
    ensures same { (result.0.session ≡ done.session) × (result.0.number ≡ done.number) × (result.0.version ≡ done.version) × (result.0.answers ≡ done.answers) }
{
    let Done {
        session,
        number,
        version,
        hand,
        answers,
        task,
    } = done;
    match hand {
        Some(hand) => (
            Done {
                session,
                number,
                version,
                hand: None,
                answers,
                task,
            },
            hand,
        ),
        None => unreachable!(),
    }
}
