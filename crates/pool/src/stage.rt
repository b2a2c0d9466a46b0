//! What one thread is to do, and what it leaves.
ghost use Rattle.std.specs.Prelude.{◌≡◌, [], Some, None, MatchOption, length};
ghost use Rattle.std.specs.List.{AllByRecursion};
ghost use Rattle.crossbeam_queue.specs.Passes.{view};
ghost use Rattle.handover.specs.Accounts.{share};
ghost use Rattle.pool.specs.Shifts.{IsAccountOf, HasHelped};
ghost use Rattle.pool.specs.Stages.{CanRun, HasLeft, HasRun, WasRun, IsStage, AreOf, AllPlayed, WasPlayed};

use crate::kept::Kept;
use crate::noted::Noted;
use crate::port::Port;
use crate::session::Session;
use crate::worker::run_worker;
use gates::Gate;
use handover::{Account, Handover};
use outer::{Matcher, Sink};
use shared_buffer::{PlainBuffer, SharedBuffer};
use std::alloc::Global;
use std::sync::Wait;
use std::sync::atomic::{AtomicUsize, Ordering};
use std::thread::{Threads, for_each_mut};
use workers::Sent;

// What all threads share: the queue, the buffer, the gate, how many sessions are still under way, and whether there are
// workers.
#[derive(Drop)]
pub(crate) struct Pool<'a, B: PlainBuffer + Send, M: Matcher, K: Sink + Drop, G: Gate> {
    pub(crate) alloc: Global,
    pub(crate) queue: &'a Handover<Sent<M, K>>,
    pub(crate) buffer: &'a SharedBuffer<B>,
    pub(crate) gate: &'a G,
    pub(crate) running: &'a AtomicUsize,
    pub(crate) helped: bool,
}

// What a thread begins with: an account, room for the tasks that it runs and for what it notes, and its session. A thread
// with none is a worker.
#[derive(Drop)]
pub(crate) struct Ready<S, M: Matcher, K: Sink + Drop> {
    pub(crate) account: Account<Sent<M, K>>,
    pub(crate) noted: Vec<Noted<M, K>>,
    pub(crate) room: Vec<Kept<M, K>>,
    pub(crate) session: Option<S>,
}

// What a thread leaves: its account, what its session left, and what came of the tasks that the session ran and of those
// that the worker took.
#[derive(Drop)]
pub(crate) struct Left<T, M: Matcher, K: Sink + Drop> {
    pub(crate) account: Account<Sent<M, K>>,
    pub(crate) out: Option<T>,
    pub(crate) here: Vec<Kept<M, K>>,
    pub(crate) helped: Vec<Kept<M, K>>,
}

// A thread before its run, and after it.
#[derive(Drop)]
pub(crate) struct Stage<S, T, M: Matcher, K: Sink + Drop> {
    pub(crate) ready: Option<Ready<S, M, K>>,
    pub(crate) left: Option<Left<T, M, K>>,
}

// Runs what each thread is to do, each in a thread of its own. Where no thread can be made, this one runs the last first.
pub(crate) fn run_stages<
    S: Session<B, M, K, G>,
    B: PlainBuffer + Send,
    M: Matcher,
    K: Sink + Drop + Send,
    G: Gate,
    R: Threads + Wait + Sync,
>(rt: &R, pool: &Pool<'_, B, M, K, G>, stages: &mut [Stage<S, S::Out, M, K>])
    requires can { AllByRecursion (IsStage (CanRun S.limit S.IsOf pool.now.queue.now.ring pool.now.buffer.now)) stages.old }
    ensures len { length stages.new ≡ length stages.old }
    ensures run { (ss : _) → AreOf ss stages.old → AllPlayed (WasRun M.tells K.taken K.faults S.number S.limit S.Leaves S.sent pool.now.queue.now.ring pool.now.buffer.now) ss stages.new }
{
    if stages.is_empty() {
        return;
    }
    let run = |_at: usize, stage: &mut Stage<S, S::Out, M, K>|
        requires { IsStage (CanRun S.limit S.IsOf pool.now.queue.now.ring pool.now.buffer.now) stage.now }
        ensures { WasPlayed (WasRun M.tells K.taken K.faults S.number S.limit S.Leaves S.sent pool.entry.now.queue.now.ring pool.entry.now.buffer.now) stage.entry.now stage.exit.now }
    { run_stage(rt, pool, stage) };
    for_each_mut(rt, stages, stages.len(), &run);
}

// Runs what a thread is to do.
pub(crate) fn run_stage<
    S: Session<B, M, K, G>,
    B: PlainBuffer + Send,
    M: Matcher,
    K: Sink + Drop,
    G: Gate,
    R: Wait,
>(rt: &R, pool: &Pool<'_, B, M, K, G>, stage: &mut Stage<S, S::Out, M, K>)
    requires { IsStage (CanRun S.limit S.IsOf pool.now.queue.now.ring pool.now.buffer.now) stage.old }
    ensures { WasPlayed (WasRun M.tells K.taken K.faults S.number S.limit S.Leaves S.sent pool.now.queue.now.ring pool.now.buffer.now) stage.old stage.new }
{
    let Some(ready) = stage.ready.take() else {
        unreachable!()
    };
    stage.left = Some(run_ready(rt, pool, ready));
}

// Runs a session, or works for others.
fn run_ready<
    S: Session<B, M, K, G>,
    B: PlainBuffer + Send,
    M: Matcher,
    K: Sink + Drop,
    G: Gate,
    R: Wait,
>(rt: &R, pool: &Pool<'_, B, M, K, G>, ready: Ready<S, M, K>) -> Left<S::Out, M, K>
    requires { CanRun S.limit S.IsOf pool.now.queue.now.ring pool.now.buffer.now ready }
    ensures { WasRun M.tells K.taken K.faults S.number S.limit S.Leaves S.sent pool.now.queue.now.ring pool.now.buffer.now ready.session result }
{
    let Ready {
        account,
        noted,
        room,
        session,
    } = ready;
    match session {
        Some(session) => run_session(rt, pool, account, noted, room, session),
        None => help(rt, pool, account, room),
    }
}

// Runs a session. The last session that has ended tells the workers.
fn run_session<
    S: Session<B, M, K, G>,
    B: PlainBuffer + Send,
    M: Matcher,
    K: Sink + Drop,
    G: Gate,
    R: Wait,
>(
    rt: &R,
    pool: &Pool<'_, B, M, K, G>,
    account: Account<Sent<M, K>>,
    noted: Vec<Noted<M, K>>,
    room: Vec<Kept<M, K>>,
    session: S,
) -> Left<S::Out, M, K>
    requires { CanRun S.limit S.IsOf pool.now.queue.now.ring pool.now.buffer.now (record { account = account; noted = noted; room = room; session = Some session }) }
    ensures left { HasLeft M.tells K.taken K.faults S.sent pool.now.queue.now.ring result }
    ensures run { MatchOption result.out ⊥ (HasRun S.number S.limit S.Leaves S.sent pool.now.buffer.now session) }
{
    let most = session.most() as usize;
    let mut port = Port::new(pool, most, account, noted, room);
    let out = session.run(rt, pool.alloc, pool.buffer, &mut port);
    let (account, here) = port.end();
    if pool.running.fetch_sub(1, Ordering::SeqCst) == 1 {
        pool.queue.close(rt);
    }
    Left {
        account,
        out: Some(out),
        here,
        helped: Vec::new(pool.alloc),
    }
}

// Works for the sessions.
fn help<T, B: PlainBuffer + Send, M: Matcher, K: Sink + Drop, G: Gate, R: Wait>(
    rt: &R,
    pool: &Pool<'_, B, M, K, G>,
    mut account: Account<Sent<M, K>>,
    mut room: Vec<Kept<M, K>>,
) -> Left<T, M, K>
    requires account { IsAccountOf pool.now.queue.now.ring account × (view account ≡ share 1 [] []) }
    requires empty { room.items ≡ [] }
    ensures account { IsAccountOf pool.now.queue.now.ring result.account × ((view result.account).put ≡ []) }
    ensures helped { HasHelped M.tells K.taken K.faults (view result.account) result.helped.items }
    ensures none { (result.out ≡ None) × (result.here.items ≡ []) }
{
    run_worker(
        rt,
        pool.alloc,
        pool.queue,
        pool.buffer,
        pool.gate,
        &mut account,
        &mut room,
    );
    Left {
        account,
        out: None,
        here: Vec::new(pool.alloc),
        helped: room,
    }
}
