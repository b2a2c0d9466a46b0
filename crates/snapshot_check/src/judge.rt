//! The answers through a take, judged by the text of its version.
ghost use Rattle.std.specs.Prelude.{◌≡◌, ℕ, List, [], ◌∷◌, Option, map, drop, false, if◌then◌else◌, IfOk};
ghost use Rattle.machine.specs.Lawful as lawful;
ghost use Rattle.machine.specs.Lawful.{asked_in, asked_of, next_told};
ghost use Rattle.machine.specs.Answers.{Matches};
ghost use Rattle.machine.specs.declared.reads.Read.TheVariants as read;
ghost use Rattle.snapshot_check.specs.Takes.{taking_of};
ghost use Rattle.snapshot_check.specs.Judged.{IsJudged};

use crate::numbers::lesser;
use crate::same::same_answer;
use crate::take::Take;
use crate::takes::{behind, is_pattern, patterns_in, reads_in};
use line_text::LineText;
use machine::{Command, Read, ReadAnswer, Reply};
use outer::Matcher;
use plain_reads::{answer, answer_pattern};
use points::NoMemory;
use std::alloc::Global;

/// Judges the answers to the reads through a take, from its place to where its number ends.
pub(crate) fn judge_take<M: Matcher>(
    alloc: Global,
    text: &LineText,
    matchers: &mut Vec<M>,
    take: &Take<'_>,
) -> Result<bool, NoMemory>
    ensures same { map M.tells matchers.new.items ≡ map M.tells matchers.old.items }
    ensures judged { IfOk result (λ b. IsJudged b text.now (taking_of (map M.tells matchers.old.items) take.now).asked) }
{
    judge_behind(
        alloc,
        text,
        matchers,
        take.commands,
        take.replies,
        take.place + 1,
        take.snapshot,
        take.patterns,
    )
}

// Judges the answers of the commands from a place on to reads through this snapshot, to where its number ends; so many patterns
// were read before that place.
fn judge_behind<M: Matcher>(
    alloc: Global,
    text: &LineText,
    matchers: &mut Vec<M>,
    commands: &[Command],
    replies: &[Reply],
    from: usize,
    snapshot: u32,
    patterns: usize,
) -> Result<bool, NoMemory>
    ensures same { map M.tells matchers.new.items ≡ map M.tells matchers.old.items }
    ensures judged { IfOk result (λ b. IsJudged b text.now
        (asked_of snapshot (drop patterns (map M.tells matchers.old.items)) (drop from commands.now) (drop from replies.now))) }
{
    let mut at = patterns;
    let count = lesser(commands.len(), replies.len());
    for i in from..count {
        let command = &commands[i];
        if !judge_command(alloc, text, matchers, at, snapshot, command, &replies[i])? {
            return Ok(false);
        }
        if ends(snapshot, command) {
            return Ok(true);
        }
        at = behind(at, patterns_in(command), matchers.as_slice().len());
    }
    Ok(true)
}

// Judges the answers of a command to reads through this snapshot.
fn judge_command<M: Matcher>(
    alloc: Global,
    text: &LineText,
    matchers: &mut Vec<M>,
    at: usize,
    snapshot: u32,
    command: &Command,
    reply: &Reply,
) -> Result<bool, NoMemory>
    ensures same { map M.tells matchers.new.items ≡ map M.tells matchers.old.items }
    ensures judged { IfOk result (λ b. IsJudged b text.now
        (asked_in (drop at (map M.tells matchers.old.items)) (lawful.reads_of snapshot command.now) (lawful.answers_in reply.now))) }
{
    if !is_through(snapshot, command) {
        return Ok(true);
    }
    judge_reads(
        alloc,
        text,
        matchers,
        at,
        reads_in(command),
        answers_in(reply),
    )
}

// Judges answers to reads, one after the other.
fn judge_reads<M: Matcher>(
    alloc: Global,
    text: &LineText,
    matchers: &mut Vec<M>,
    at: usize,
    reads: &[Read],
    answers: &[ReadAnswer],
) -> Result<bool, NoMemory>
    ensures same { map M.tells matchers.new.items ≡ map M.tells matchers.old.items }
    ensures judged { IfOk result (λ b. IsJudged b text.now (asked_in (drop at (map M.tells matchers.old.items)) reads.now answers.now)) }
{
    let mut at = at;
    let count = lesser(reads.len(), answers.len());
    for i in 0..count {
        if !judge_read(alloc, text, matchers, at, &reads[i], &answers[i])? {
            return Ok(false);
        }
        at = behind(at, pattern_count(&reads[i]), matchers.as_slice().len());
    }
    Ok(true)
}

// How many patterns a read has.
fn pattern_count(read: &Read) -> usize
    ensures { result ≡ (if lawful.is_pattern read.now then 1 else 0) }
{
    if is_pattern(read) { 1 } else { 0 }
}

// Judges an answer.
fn judge_read<M: Matcher>(
    alloc: Global,
    text: &LineText,
    matchers: &mut Vec<M>,
    at: usize,
    read: &Read,
    given: &ReadAnswer,
) -> Result<bool, NoMemory>
    ensures same { map M.tells matchers.new.items ≡ map M.tells matchers.old.items }
    ensures judged { IfOk result (λ b. IsJudged b text.now (record { told = next_told (drop at (map M.tells matchers.old.items)); read = read.now; answer = given.now } ∷ [])) }
{
    match read {
        Read::Pattern { limit, .. } => match matchers.get_mut(at) {
            None => Ok(true),
            Some(matcher) => judge_pattern(alloc, text, matcher, *limit, given),
        },
        _ => judge_plain(alloc, text, read, given),
    }
}

// Judges an answer to a pattern.
fn judge_pattern<M: Matcher>(
    alloc: Global,
    text: &LineText,
    matcher: &mut M,
    limit: u32,
    given: &ReadAnswer,
) -> Result<bool, NoMemory>
    ensures same { M.tells matcher.new ≡ M.tells matcher.old }
    ensures judged { (pattern : List ℕ) → IfOk result (λ b. IsJudged b text.now (record { told = M.tells matcher.old; read = read.Pattern pattern limit; answer = given.now } ∷ [])) }
{
    let found = answer_pattern(alloc, text, matcher, limit)?;
    Ok(same_answer(given, &found))
}

// Judges an answer to a read that no hits are told for.
fn judge_plain(
    alloc: Global,
    text: &LineText,
    read: &Read,
    given: &ReadAnswer,
) -> Result<bool, NoMemory>
    requires { lawful.is_pattern read.now ≡ false }
    ensures { (told : Option Matches) → IfOk result (λ b. IsJudged b text.now (record { told = told; read = read.now; answer = given.now } ∷ [])) }
{
    match answer(alloc, text, read)? {
        None => Ok(true),
        Some(right) => Ok(same_answer(given, &right)),
    }
}

// A command reads through this snapshot.
fn is_through(snapshot: u32, command: &Command) -> bool
    ensures { result ≡ lawful.is_through snapshot command.now }
{
    match command {
        Command::Read { snapshot: read, .. } => *read == snapshot,
        Command::Send { snapshot: sent, .. } => *sent == snapshot,
        _ => false,
    }
}

// A command ends the number of this snapshot, or takes it anew.
fn ends(snapshot: u32, command: &Command) -> bool
    ensures { result ≡ lawful.ends snapshot command.now }
{
    match command {
        Command::Send { snapshot: sent, .. } => *sent == snapshot,
        Command::Release { snapshot: released } => *released == snapshot,
        Command::Take { snapshot: taken } => *taken == snapshot,
        _ => false,
    }
}

// The answers of a reply.
fn answers_in(reply: &Reply) -> &[ReadAnswer]
    ensures { result.now ≡ lawful.answers_in reply.now }
{
    match reply {
        Reply::Answered { answers } => answers.as_slice(),
        _ => &[],
    }
}
