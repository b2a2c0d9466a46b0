//! A session in a thread of its own.
ghost use Rattle.std.specs.Prelude.{◌≡◌, List, length, IfOk, IfErr, IsSome, Some};
ghost use Rattle.std.specs.declared.result.Result.TheVariants.{Ok as ok, Err as err};
ghost use Rattle.std.specs.List.{AllByRecursion};
ghost use Rattle.sessions.specs.Seats.{CanRun, HasEnded, WasRun, AreReady, HaveRun, Work};

use crate::holding::SpareHand;
use crate::refusal::RunRefusal;
use crate::session::run_session;
use machine::{Command, Reply};
use outer::Matcher;
use shared_buffer::{Desk, PlainBuffer, SharedBuffer};
use std::alloc::Global;
use std::mem::replace;
use std::sync::Wait;
use std::thread::{Threads, for_each_mut};

/// A session with its desk: its hands, commands and matchers before it runs, and then its replies, or why it has none.
#[derive(Drop)]
pub(crate) struct Seat<M> {
    pub(crate) desk: Desk,
    pub(crate) hands: Vec<SpareHand>,
    pub(crate) commands: Vec<Command>,
    pub(crate) matchers: Vec<M>,
    pub(crate) ended: Option<Result<Vec<Reply>, RunRefusal>>,
}

// Runs each seat's session in a thread of its own. Where no thread can be made, it runs in this one.
pub(crate) fn run_seats<B: PlainBuffer + Send, M: Matcher, R: Threads + Wait + Sync>(
    rt: &R,
    alloc: Global,
    buffer: &SharedBuffer<B>,
    seats: &mut [Seat<M>],
)
    requires can { AllByRecursion (CanRun M.tells buffer.now) seats.old }
    ensures len { length seats.new ≡ length seats.old }
    ensures ended { AllByRecursion (HasEnded M.tells buffer.now) seats.new }
    ensures run { (ws : List Work) → AreReady M.tells buffer.now 0 ws seats.old → HaveRun M.tells buffer.now 0 ws seats.new }
{
    if seats.is_empty() {
        return;
    }
    let run = |_at: usize, seat: &mut Seat<M>|
        requires { CanRun M.tells buffer.now seat.now }
        ensures { WasRun M.tells buffer.entry.now seat.entry.now seat.exit.now }
    { run_seat(rt, alloc, buffer, seat) };
    for_each_mut(rt, seats, seats.len(), &run);
}

// Runs a seat's session.
fn run_seat<B: PlainBuffer + Send, M: Matcher, R: Wait>(
    rt: &R,
    alloc: Global,
    buffer: &SharedBuffer<B>,
    seat: &mut Seat<M>,
)
    requires can { CanRun M.tells buffer.now seat.old }
    ensures ran { WasRun M.tells buffer.now seat.old seat.new }
{
    let hands = replace(&mut seat.hands, Vec::new(alloc));
    let matchers = replace(&mut seat.matchers, Vec::new(alloc));
    let commands = replace(&mut seat.commands, Vec::new(alloc));
    let ended = run_session(rt, alloc, buffer, &mut seat.desk, hands, matchers, commands);
    seat.ended = Some(ended);
}

impl<M: Drop> Seat<M> {
    // The desk and the replies of a session that was run, or the reason why it has none.
    pub(crate) fn into_ended(self) -> Result<(Desk, Vec<Reply>), RunRefusal>
        requires ended { IsSome self.ended }
        ensures ok { IfOk result (λ r. (r.0 ≡ self.desk) × (self.ended ≡ Some (ok r.1))) }
        ensures err { IfErr result (λ no. self.ended ≡ Some (err no)) }
    {
        let Seat {
            desk,
            hands: _,
            commands: _,
            matchers: _,
            ended,
        } = self;
        match ended {
            Some(Ok(replies)) => Ok((desk, replies)),
            Some(Err(no)) => Err(no),
            None => unreachable!(),
        }
    }
}
