//! Two sessions in threads of their own, over one empty text, and one that searches what it typed.
ghost use Rattle.std.specs.Prelude.{◌≡◌, count_by, true, IfSome};
ghost use Rattle.std.specs.List.{list_all};
ghost use Rattle.sessions.specs.Rules.{is_own_read};
ghost use Rattle.machine.specs.Lawful.{is_pattern};
ghost use Rattle.sessions.specs.Seats.{CanBeAnswered};

use crate::shared_buffer_tests::{Counting, plain};
use machine::{Command, Read, ReadAnswer, Reply, Sequence, Text};
use outer::LiteralMatcher;
use points::{Point, Range};
use sessions::{Plan, Ran, run_sessions};
use std::alloc::Global;
use std::sync::Wait;
use std::thread::Threads;

// The text's start.
fn start() -> Range {
    let start = Point { row: 0, column: 0 };
    Range::new(start, start)
}

// Three edits that put an `x` at the text's start, for a session without hands.
fn typing(alloc: Global) -> Option<Plan<LiteralMatcher>>
    ensures { IfSome result (λ p. (p.hands ≡ 0) × CanBeAnswered p) }
{
    let mut commands = Vec::new(alloc);
    for _ in 0..3 {
        let text = Text::from_str(alloc, "x").ok()?;
        let range = start();
        commands.push(Command::Edit { range, text }).ok()?;
    }
    Some(Plan {
        commands,
        matchers: Vec::new(alloc),
        hands: 0,
    })
}

// Two such sessions, run.
fn run_two<R: Threads + Wait + Sync>(rt: &R, alloc: Global) -> Option<Ran> {
    let buffer = Counting {
        plain: plain(alloc)?,
    };
    let mut plans = Vec::new(alloc);
    plans.push(typing(alloc)?).ok()?;
    plans.push(typing(alloc)?).ok()?;
    run_sessions(rt, alloc, buffer, plans).ok()
}

// The numbers of calls that were edits, and 0 for every other reply.
fn number_of(reply: &Reply) -> u64 {
    match reply {
        Reply::Edited { at, .. } | Reply::Batched { at, .. } => *at,
        _ => 0,
    }
}

// Whether a session has three replies, whose numbers rise; a bit for each number.
fn numbers_of(replies: &[Reply]) -> (bool, u64) {
    let mut rises = replies.len() == 3;
    let mut last = 0;
    let mut seen = 0;
    for reply in replies {
        let number = number_of(reply);
        rises = rises && last < number && number < 64;
        last = number;
        seen |= 1u64.wrapping_shl(number.min(63) as u32);
    }
    (rises, seen)
}

// Whether each of the six calls has a number of its own, from 1 to 6, rising in its session, and the text is theirs.
fn six_calls(ran: &Ran) -> bool {
    let sessions = ran.sessions.as_slice();
    if sessions.len() != 2 {
        return false;
    }
    let (one_rises, one) = numbers_of(sessions[0].as_slice());
    let (other_rises, other) = numbers_of(sessions[1].as_slice());
    one_rises
        && other_rises
        && one | other == 0b111_1110
        && ran.count == 6
        && ran.text.as_slice() == [120, 120, 120, 120, 120, 120].as_slice()
}

#[test]
fn two_sessions_have_one_history(rt: HostRuntime) {
    let ran = run_two(&rt, rt.alloc());
    assert!(rt; ran.is_some_and(|ran| six_calls(&ran)));
}

// One search for `x`, of which one hit is shown.
fn search(alloc: Global) -> Option<Vec<Read>>
    ensures { IfSome result (λ reads. (list_all is_own_read reads.items ≡ true) × (count_by is_pattern reads.items ≡ 0)) }
{
    let needle = Text::from_str(alloc, "x").ok()?;
    let mut reads = Vec::new(alloc);
    reads.push(Read::Find { needle, limit: 1 }).ok()?;
    Some(reads)
}

// A session with one hand that types `xyx`, takes a snapshot and sends it with a search.
fn searching(alloc: Global) -> Option<Plan<LiteralMatcher>>
    ensures { IfSome result (λ p. (p.hands ≡ 1) × CanBeAnswered p) }
{
    let text = Text::from_str(alloc, "xyx").ok()?;
    let range = start();
    let reads = Sequence::new(search(alloc)?);
    let mut commands = Vec::new(alloc);
    commands.push(Command::Edit { range, text }).ok()?;
    commands.push(Command::Take { snapshot: 7 }).ok()?;
    commands.push(Command::Send { snapshot: 7, reads }).ok()?;
    Some(Plan {
        commands,
        matchers: Vec::new(alloc),
        hands: 1,
    })
}

// Such a session, run alone.
fn run_search<R: Threads + Wait + Sync>(rt: &R, alloc: Global) -> Option<Ran> {
    let buffer = Counting {
        plain: plain(alloc)?,
    };
    let mut plans = Vec::new(alloc);
    plans.push(searching(alloc)?).ok()?;
    run_sessions(rt, alloc, buffer, plans).ok()
}

// Whether an answer has two hits, and shows the one at the text's start.
fn two_hits(answer: &ReadAnswer) -> bool {
    match answer {
        ReadAnswer::Found { count, hits } => {
            let shown = hits.as_slice();
            *count == 2
                && shown.len() == 1
                && shown[0].start == Point { row: 0, column: 0 }
                && shown[0].end == Point { row: 0, column: 1 }
        }
        _ => false,
    }
}

// Whether the session's third reply is one such answer.
fn has_searched(ran: &Ran) -> bool {
    let sessions = ran.sessions.as_slice();
    if sessions.len() != 1 {
        return false;
    }
    let replies = sessions[0].as_slice();
    if replies.len() != 3 {
        return false;
    }
    match &replies[2] {
        Reply::Answered { answers } => {
            let answers = answers.as_slice();
            answers.len() == 1 && two_hits(&answers[0])
        }
        _ => false,
    }
}

#[test]
fn a_session_searches_its_snapshot(rt: HostRuntime) {
    let ran = run_search(&rt, rt.alloc());
    assert!(rt; ran.is_some_and(|ran| has_searched(&ran)));
}
