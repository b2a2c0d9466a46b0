//! The takes of a transcript, in script order.
ghost use Rattle.std.specs.Prelude.{◌≡◌, ℕ, List, Option, get_or, ◌+◌, ◌<◌, ◌≤◌, ◌^◌, ◌++◌, [], None, min, length, map, take, drop, sum, count_by, IfOk, OnOk};
ghost use Rattle.std.specs.List.{AllByRecursion};
ghost use Rattle.std.specs.List.Sorted.{IsStrictlyIncreasing};
ghost use Rattle.machine.specs.Answers.{Matches};
ghost use Rattle.machine.specs.declared.command.Command.{Command as ACommand};
ghost use Rattle.machine.specs.declared.reply.Reply.{Reply as AReply};
ghost use Rattle.machine.specs.Lawful as lawful;
ghost use Rattle.machine.specs.Lawful.{numbers, reads_in, patterns_of};
ghost use Rattle.snapshot_check.specs.Takes.{placed, first_number};
ghost use Rattle.snapshot_check.specs.Gathered.{left_in, taken_in, gathered, AreSame, IsStage, AreAllTakes};

use crate::numbers::{lesser, number_of};
use crate::take::Take;
use machine::{Command, Read, Reply, Sequence};
use points::NoMemory;
use std::alloc::Global;

/// The takes of all sessions. Of the patterns that are read before a take at most `all` are counted.
pub fn all_takes<'a>(
    alloc: Global,
    sessions: &'a [Sequence<Command>],
    replies: &'a [Sequence<Reply>],
    all: usize,
) -> Result<Vec<Take<'a>>, NoMemory>
    requires sessions { length sessions.now < 2 ^ 32 }
    requires commands { sum (map length sessions.now) < 2 ^ 32 }
    requires rising { AllByRecursion (λ rs. IsStrictlyIncreasing (numbers rs)) replies.now }
    ensures { IfOk result (λ v. AreAllTakes all sessions.now replies.now v.items) }
{
    let mut takes = Vec::new(alloc);
    let mut patterns = 0;
    let count = lesser(sessions.len(), replies.len());
    for i in 0..count {
        let commands = sessions[i].as_slice();
        add_takes(
            &mut takes,
            i as u32 + 1,
            commands,
            replies[i].as_slice(),
            patterns,
            all,
        )?;
        patterns = behind_session(patterns, commands, all);
    }
    Ok(takes)
}

// Where a walk over a session stands: how many patterns were read before it, the session's last number, or 0, and its next.
#[derive(Clone, Copy)]
pub(crate) struct Stage {
    patterns: usize,
    last: u64,
    next: Option<u64>,
}

// Adds the takes of a session.
fn add_takes<'a>(
    takes: &mut Vec<Take<'a>>,
    session: u32,
    commands: &'a [Command],
    replies: &'a [Reply],
    patterns: usize,
    all: usize,
) -> Result<(), NoMemory>
    requires small { length commands.now < 2 ^ 32 }
    requires rising { IsStrictlyIncreasing (numbers replies.now) }
    ensures { OnOk result (AreSame all (gathered takes.new.items (λ _. []))
        (gathered takes.old.items (left_in session commands.now replies.now 0 patterns))) }
{
    let mut stage = Stage {
        patterns,
        last: 0,
        next: next_number(replies, 0),
    };
    let count = lesser(commands.len(), replies.len());
    for i in 0..count {
        stage.patterns = behind(stage.patterns, patterns_in(&commands[i]), all);
        add_take(takes, session, i, commands, replies, stage)?;
        stage = moved(stage, replies, i);
    }
    Ok(())
}

// Adds the take of one command, if it is one and is answered as one.
fn add_take<'a>(
    takes: &mut Vec<Take<'a>>,
    session: u32,
    place: usize,
    commands: &'a [Command],
    replies: &'a [Reply],
    stage: Stage,
) -> Result<(), NoMemory>
    requires command { place < length commands.now }
    requires reply { place < length replies.now }
    requires small { length commands.now < 2 ^ 32 }
    requires rising { IsStrictlyIncreasing (numbers replies.now) }
    requires stage { IsStage replies.now place stage }
    ensures { OnOk result ((told : List (Option Matches)) → (c : ACommand) (r : AReply) → c ≡ get_or commands.now place c → r ≡ get_or replies.now place r
        → map (placed told) takes.new.items ≡ gathered takes.old.items (taken_in session c r commands.now replies.now place stage.patterns) told) }
{
    match &commands[place] {
        Command::Take { snapshot } => match &replies[place] {
            Reply::Taken { version } => {
                takes.push(Take {
                    session,
                    place,
                    commands,
                    replies,
                    patterns: stage.patterns,
                    snapshot: *snapshot,
                    version: *version,
                    last: stage.last,
                    next: stage.next,
                })?;
                Ok(())
            }
            _ => Ok(()),
        },
        _ => Ok(()),
    }
}

// The stage behind a reply.
fn moved(stage: Stage, replies: &[Reply], place: usize) -> Stage
    requires reply { place < length replies.now }
    requires stage { IsStage replies.now place stage }
    ensures stage { IsStage replies.now (place + 1) result }
    ensures patterns { result.patterns ≡ stage.patterns }
{
    match number_of(&replies[place]) {
        None => stage,
        Some(number) => Stage {
            patterns: stage.patterns,
            last: number,
            next: next_number(replies, place + 1),
        },
    }
}

// The first number of the replies from a place on.
fn next_number(replies: &[Reply], from: usize) -> Option<u64>
    ensures { result ≡ first_number (numbers (drop from replies.now)) }
{
    for i in from..replies.len() {
        match number_of(&replies[i]) {
            None => {}
            Some(number) => return Some(number),
        }
    }
    None
}

/// How many patterns were read behind so many more; at most `all` are counted.
pub(crate) fn behind(patterns: usize, more: usize, all: usize) -> usize
    ensures { result ≡ min (patterns + more) all }
{
    if more < all.saturating_sub(patterns) {
        patterns + more
    } else {
        all
    }
}

// The same behind a whole session.
fn behind_session(patterns: usize, commands: &[Command], all: usize) -> usize
    requires { patterns ≤ all }
    ensures { result ≡ min (patterns + patterns_of commands.now) all }
{
    let mut at = patterns;
    for i in 0..commands.len() {
        at = behind(at, patterns_in(&commands[i]), all);
    }
    at
}

/// How many patterns a command reads.
pub(crate) fn patterns_in(command: &Command) -> usize
    ensures { result ≡ lawful.patterns_in command.now }
{
    reads_in(command)
        .iter()
        .filter(|read| is_pattern(read))
        .count()
}

/// The reads of a command.
pub(crate) fn reads_in(command: &Command) -> &[Read]
    ensures { result.now ≡ reads_in command.now }
{
    match command {
        Command::Read { reads, .. } => reads.as_slice(),
        Command::Send { reads, .. } => reads.as_slice(),
        _ => &[],
    }
}

/// The read is of a pattern.
pub(crate) fn is_pattern(read: &Read) -> bool
    ensures { result ≡ lawful.is_pattern read.now }
{
    match read {
        Read::Pattern { .. } => true,
        _ => false,
    }
}
