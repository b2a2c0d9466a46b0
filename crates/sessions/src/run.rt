//! A buffer that sessions share from its beginning to its end.
ghost use Rattle.std.specs.Prelude.{◌≡◌, ◌≤◌, map, vec_len, IfOk, IfErr};
ghost use Rattle.std.specs.List.{AllByRecursion};
ghost use Rattle.points.specs.declared.limits.TheConstants.{MAX_HANDS};
ghost use Rattle.sessions.specs.Seats.{CanBeAnswered, hands_wanted, IsLawfulRun, RanOut, work_of};

use crate::plan::Plan;
use crate::refusal::RunRefusal;
use crate::seat::run_seats;
use crate::seating::{gather, seat_all};
use machine::{Reply, Sequence};
use outer::Matcher;
use points::{MAX_HANDS, NoMemory, Units};
use shared_buffer::{Finished, PlainBuffer, SharedBuffer, Started};
use std::alloc::Global;
use std::sync::Wait;
use std::thread::Threads;

/// What sessions that shared a buffer leave: the replies of each, the whole text at the end, and how many calls were
/// numbered.
#[derive(Drop)]
pub struct Ran {
    pub sessions: Vec<Sequence<Reply>>,
    pub text: Units,
    pub count: u64,
}

/// Runs sessions over a buffer that they share, each in a thread of its own, or one after another where no thread can be
/// made. Whatever the order in which their calls come, the transcript of their replies with this end is lawful.
pub fn run_sessions<B: PlainBuffer + Send, M: Matcher, R: Threads + Wait + Sync>(
    rt: &R,
    alloc: Global,
    buffer: B,
    plans: Vec<Plan<M>>,
) -> Result<Ran, RunRefusal>
    requires fit { B.IsFit buffer }
    requires sessions { (1 ≤ vec_len plans) × (vec_len plans ≤ 64) }
    requires hands { hands_wanted plans.items ≤ MAX_HANDS }
    requires can { AllByRecursion CanBeAnswered plans.items }
    ensures lawful { IfOk result (λ r. IsLawfulRun B.version (B.state buffer) (map (work_of M.tells) plans.items) r.sessions.items r.text r.count) }
    ensures spent { IfErr result (λ no. no ≡ RunRefusal.Spent → RanOut B.version (B.state buffer) (vec_len plans)) }
{
    let desks = plans.len() as u32;
    let (started, hands) = SharedBuffer::start_with_hands(alloc, buffer, desks, MAX_HANDS as u32)?;
    let Started { buffer, desks } = started;
    let mut seats = seat_all(alloc, desks, hands, plans)?;
    run_seats(rt, alloc, &buffer, seats.as_mut_slice());
    let (desk, sessions) = gather(alloc, &buffer, seats)?;
    match buffer.finish(rt, alloc, desk) {
        Ok(Finished { text, count }) => Ok(Ran {
            sessions,
            text,
            count,
        }),
        Err(_) => Err(RunRefusal::NoMemory),
    }
}
