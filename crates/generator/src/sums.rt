//! The five numbers that sum a transcript up.
ghost use Rattle.std.specs.Prelude.{◌≡◌, ◌+◌, cond, count_by, sum_by};
ghost use Rattle.machine.specs.Lawful.{is_taken};
ghost use Rattle.generator.specs.Summary.{capped, hits_of, hits_told, summary_of};

use crate::measure::{rows_of, units_of};
use crate::numbers::Summary;
use machine::{ReadAnswer, Reply, Sequence, Transcript};

/// The summary of a transcript. It takes no memory.
pub fn summary(transcript: &Transcript) -> Summary
    ensures { result ≡ summary_of transcript.now }
{
    let text = transcript.end.text.as_str();
    let sessions = transcript.sessions.as_slice();
    Summary {
        calls: transcript.end.count,
        units: units_of(text),
        rows: rows_of(text),
        snapshots: snapshots_in(sessions),
        hits: hits_in(sessions),
    }
}

// The snapshots that the sessions took.
fn snapshots_in(sessions: &[Sequence<Reply>]) -> u64
    ensures { result ≡ capped (sum_by (count_by is_taken) sessions.now) }
{
    let mut sum = 0;
    for replies in sessions {
        sum = add_taken(sum, replies.as_slice());
    }
    sum
}

// Adds the snapshots that a session took.
fn add_taken(before: u64, replies: &[Reply]) -> u64
    ensures { result ≡ capped (before + count_by is_taken replies.now) }
{
    let mut sum = before;
    for reply in replies {
        sum = sum.saturating_add(taken(reply));
    }
    sum
}

// 1 where a reply tells of a snapshot that was taken, and else 0.
fn taken(reply: &Reply) -> u64
    ensures { result ≡ cond (is_taken reply.now) 1 0 }
{
    match reply {
        Reply::Taken { .. } => 1,
        _ => 0,
    }
}

// The hits that the sessions were told.
fn hits_in(sessions: &[Sequence<Reply>]) -> u64
    ensures { result ≡ capped (sum_by (sum_by hits_told) sessions.now) }
{
    let mut sum = 0;
    for replies in sessions {
        sum = add_session_hits(sum, replies.as_slice());
    }
    sum
}

// Adds the hits that a session was told.
fn add_session_hits(before: u64, replies: &[Reply]) -> u64
    ensures { result ≡ capped (before + sum_by hits_told replies.now) }
{
    let mut sum = before;
    for reply in replies {
        sum = add_reply_hits(sum, reply);
    }
    sum
}

// Adds the hits that a reply tells.
fn add_reply_hits(before: u64, reply: &Reply) -> u64
    ensures { result ≡ capped (before + hits_told reply.now) }
{
    match reply {
        Reply::Answered { answers } => add_hits(before, answers.as_slice()),
        _ => before,
    }
}

// Adds the hits of answers.
fn add_hits(before: u64, answers: &[ReadAnswer]) -> u64
    ensures { result ≡ capped (before + sum_by hits_of answers.now) }
{
    let mut sum = before;
    for answer in answers {
        sum = sum.saturating_add(hits_of(answer));
    }
    sum
}

// The hits of an answer to a search; others have none.
fn hits_of(answer: &ReadAnswer) -> u64
    ensures { result ≡ hits_of answer.now }
{
    match answer {
        ReadAnswer::Found { count, .. } => *count,
        _ => 0,
    }
}
