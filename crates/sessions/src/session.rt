//! One session: its commands, answered in turn from its desk.
ghost use Rattle.std.specs.Prelude.{◌≡◌, ◌≤◌, ◌==◌, [], count_by, length, map, true, false, vec_len, IfOk, IfErr};
ghost use Rattle.std.specs.List.{list_all, list_any};
ghost use Rattle.machine.specs.Plain.{kept_text};
ghost use Rattle.machine.specs.declared.reply.Reply.TheVariants as replied;
ghost use Rattle.machine.specs.Lawful.{is_pattern, patterns_in, patterns_of};
ghost use Rattle.turn_table.specs.Calls.{Has, Turned};
ghost use Rattle.shared_buffer.specs.Entries.{is_plain};
ghost use Rattle.shared_buffer.specs.Tokens.{IsDeskOf};
ghost use Rattle.sessions.specs.Rules.{is_own_read, can_answer, can_answer_all};
ghost use Rattle.sessions.specs.Reading.{AreRight};
ghost use Rattle.sessions.specs.Holding.{hands_of, number_of};
ghost use Rattle.sessions.specs.Running.{IsAnswered, IsOut, IsRun};

use crate::holding::{Holding, SpareHand};
use crate::reads::answer_reads;
use crate::refusal::RunRefusal;
use machine::{Command, Read, ReadAnswer, Reply, Sequence};
use outer::Matcher;
use points::NoMemory;
use shared_buffer::{Desk, PlainBuffer, SharedBuffer};
use std::alloc::Global;
use std::sync::Wait;

/// Answers the commands of a session in turn, from its desk and with these hands. Each read of a pattern takes the next of
/// the matchers.
pub fn run_session<B: PlainBuffer + Send, M: Matcher, R: Wait>(
    rt: &R,
    alloc: Global,
    buffer: &SharedBuffer<B>,
    desk: &mut Desk,
    hands: Vec<SpareHand>,
    matchers: Vec<M>,
    commands: Vec<Command>,
) -> Result<Vec<Reply>, RunRefusal>
    requires desk { IsDeskOf buffer.now desk.old }
    requires can { can_answer_all (vec_len hands) [] commands.items ≡ true }
    requires enough { patterns_of commands.items ≤ vec_len matchers }
    ensures desk { IsDeskOf buffer.now desk.new }
    ensures spent { IfErr result (λ no. no ≡ RunRefusal.Spent → Has (IsOut buffer.now) desk.new.views) }
    ensures replies { IfOk result (λ rs. Turned (IsRun buffer.now (map M.tells matchers.items) commands.items rs.items) desk.old.views desk.new.views) }
{
    let mut holding = Holding::new(alloc, hands);
    let mut matchers = matchers;
    let mut replies = Vec::new(alloc);
    for command in commands {
        replies.push(answer(
            rt,
            alloc,
            buffer,
            desk,
            &mut holding,
            &mut matchers,
            command,
        )?)?;
    }
    Ok(replies)
}

// Answers one command.
fn answer<B: PlainBuffer + Send, M: Matcher, R: Wait>(
    rt: &R,
    alloc: Global,
    buffer: &SharedBuffer<B>,
    desk: &mut Desk,
    holding: &mut Holding,
    matchers: &mut Vec<M>,
    command: Command,
) -> Result<Reply, RunRefusal>
    requires desk { IsDeskOf buffer.now desk.old }
    requires can { can_answer (hands_of holding.old) (map number_of holding.old.kept) command ≡ true }
    requires enough { patterns_in command ≤ length matchers.old.items }
    ensures desk { IsDeskOf buffer.now desk.new }
    ensures hands { IfOk result (λ _. hands_of holding.new ≡ hands_of holding.old) }
    ensures spent { IfErr result (λ no. no ≡ RunRefusal.Spent → Has (IsOut buffer.now) desk.new.views) }
    ensures reply { IfOk result (λ r. Turned (IsAnswered buffer.now (map M.tells matchers.old.items) (map M.tells matchers.new.items) command r holding.old.kept holding.new.kept) desk.old.views desk.new.views) }
{
    if is_call(&command) {
        return Ok(buffer.play(rt, desk, command)?);
    }
    answer_other(rt, alloc, buffer, desk, holding, matchers, command)
}

// Whether a command is a numbered call that brings no watcher.
fn is_call(command: &Command) -> bool
    ensures { result ≡ is_plain command.now }
{
    match command {
        Command::Batch { .. } | Command::Watch { .. } | Command::Unwatch { .. } => false,
        Command::Take { .. } | Command::Read { .. } | Command::Send { .. } => false,
        Command::Release { .. } | Command::Squash => false,
        _ => true,
    }
}

// Answers a command that is no numbered call.
fn answer_other<B: PlainBuffer + Send, M: Matcher, R: Wait>(
    rt: &R,
    alloc: Global,
    buffer: &SharedBuffer<B>,
    desk: &mut Desk,
    holding: &mut Holding,
    matchers: &mut Vec<M>,
    command: Command,
) -> Result<Reply, RunRefusal>
    requires desk { IsDeskOf buffer.now desk.old }
    requires other { is_plain command ≡ false }
    requires can { can_answer (hands_of holding.old) (map number_of holding.old.kept) command ≡ true }
    requires enough { patterns_in command ≤ length matchers.old.items }
    ensures desk { IsDeskOf buffer.now desk.new }
    ensures other { IfErr result (λ no. no ≡ RunRefusal.NoMemory) }
    ensures hands { IfOk result (λ _. hands_of holding.new ≡ hands_of holding.old) }
    ensures reply { IfOk result (λ r. Turned (IsAnswered buffer.now (map M.tells matchers.old.items) (map M.tells matchers.new.items) command r holding.old.kept holding.new.kept) desk.old.views desk.new.views) }
{
    match command {
        Command::Take { snapshot } => {
            let version = holding.take(rt, buffer, desk, snapshot)?;
            Ok(Reply::Taken { version })
        }
        Command::Read { snapshot, reads } => {
            let answers = read(alloc, buffer, holding, matchers, snapshot, reads.as_slice())?;
            Ok(answered(answers))
        }
        Command::Send { snapshot, reads } => {
            let answers = read(alloc, buffer, holding, matchers, snapshot, reads.as_slice())?;
            holding.release(buffer, snapshot);
            Ok(answered(answers))
        }
        Command::Release { snapshot } => {
            holding.release(buffer, snapshot);
            Ok(Reply::Nothing)
        }
        Command::Squash => {
            buffer.squash(rt, desk)?;
            Ok(Reply::Nothing)
        }
        _ => unreachable!(),
    }
}

// The reply that has these answers.
fn answered(answers: Vec<ReadAnswer>) -> Reply
    ensures { result ≡ replied.Answered answers.items }
{
    Reply::Answered {
        answers: Sequence::new(answers),
    }
}

// Answers reads of a live snapshot.
fn read<B: PlainBuffer + Send, M: Matcher>(
    alloc: Global,
    buffer: &SharedBuffer<B>,
    holding: &Holding,
    matchers: &mut Vec<M>,
    number: u32,
    reads: &[Read],
) -> Result<Vec<ReadAnswer>, NoMemory>
    requires live { list_any (λ n. n == number) (map number_of holding.now.kept) ≡ true }
    requires own { list_all is_own_read reads.now ≡ true }
    requires enough { count_by is_pattern reads.now ≤ length matchers.old.items }
    ensures { IfOk result (λ answers. AreRight (kept_text number holding.now.kept) (map M.tells matchers.old.items) (map M.tells matchers.new.items) reads.now answers.items) }
{
    let snapshot = holding.find(number);
    let reader = buffer.open_snapshot(snapshot)?;
    answer_reads(alloc, &reader, matchers, reads)
}
