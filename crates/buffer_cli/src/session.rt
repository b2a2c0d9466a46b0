//! The commands of a session, answered in turn.
ghost use Rattle.std.specs.Prelude.{◌≡◌, ◌+◌, ◌<◌, ◌≤◌, [], ◌∷◌, count_by, drop, false, find, is_some, length, map, true, IfOk, OnOk, IsErrOf};
ghost use Rattle.std.specs.List.{AllByRecursion, list_all};
ghost use Rattle.points.specs.Text.{IsWellFormed};
ghost use Rattle.machine.specs.Machine.{after};
ghost use Rattle.drafts.specs.Drafts.{has_faulty};
ghost use Rattle.machine.specs.Lawful.{is_pattern, patterns_in, patterns_of, reads_in};
ghost use Rattle.machine.specs.Plain.{calls_of, kept_text, are_live};
ghost use Rattle.watch.specs.Listed.{heard_count, heard_list};
ghost use Rattle.watch.specs.Seats.{HasHeard};
ghost use Rattle.buffer.specs.Seen.{Hears, state_of};
ghost use Rattle.buffer.specs.Sound.{IsSound};
ghost use Rattle.buffer.specs.Reads.{has_number};
ghost use Rattle.buffer_cli.specs.Answered.{answered, held_after, is_answered, is_answered_read, is_held, is_read, is_send, watches_in};
ghost use Rattle.buffer_cli.specs.Hits.{AreAnswers, AreReplies, IsReply};
ghost use Rattle.buffer_cli.specs.Saved.{TakeInTurn, files_among, saved_files, text_read};

use crate::reads::answer_reads;
use crate::stop::Stop;
use buffer::{Buffer, Snapshots};
use machine::{Command, Read, ReadAnswer, Reply, Sequence};
use outer::{Matcher, Sink};
use points::{LAST, NoMemory};
use std::alloc::Global;
use watch::ListWatcher;

/// What the commands of a session are answered with: the buffer, the session's live snapshots, and the watchers that
/// aren't attached yet.
#[derive(Drop)]
pub(crate) struct Session {
    pub(crate) buffer: Buffer<ListWatcher>,
    pub(crate) snapshots: Snapshots,
    pub(crate) watchers: Vec<Box<ListWatcher>>,
}

/// Answers these commands in turn. Each `watch` attaches the next watcher, each read of a pattern takes the next matcher, and each
/// save puts to the first of the sinks, which then stands last.
pub(crate) fn answer_all<M: Matcher, K: Sink + Drop>(
    alloc: Global,
    session: &mut Session,
    matchers: &mut Vec<M>,
    sinks: &mut Vec<K>,
    commands: &[Command],
) -> Result<Vec<Reply>, Stop>
    requires count { session.old.buffer.count + length commands.now < LAST }
    requires answered { AllByRecursion (λ c. is_answered (length sinks.old.items) c ≡ true) commands.now }
    requires live { are_live [] commands.now ≡ true }
    requires whole { AllByRecursion (λ k. IsWellFormed k.text) session.old.snapshots }
    requires watches { watches_in commands.now ≤ length session.old.watchers.items }
    requires matchers { length matchers.old.items ≡ patterns_of commands.now }
    requires unheard { AllByRecursion (λ w. heard_count w.value ≡ 0) session.old.watchers.items }
    requires sound { IsSound (state_of session.old.buffer) }
    requires told { session.old.buffer.followers.watchers.told ≤ session.old.buffer.count }
    requires stands { Hears (HasHeard heard_count heard_list) session.old.buffer }
    ensures replies { IfOk result (λ rs. AreReplies (state_of session.old.buffer) (map M.tells matchers.old.items) commands.now rs.items) }
    ensures after { OnOk result (state_of session.new.buffer ≡ after (state_of session.old.buffer) (calls_of commands.now)) }
    ensures saved { OnOk result (TakeInTurn (saved_files (state_of session.old.buffer) session.old.snapshots commands.now) (map K.taken sinks.old.items) (map K.taken sinks.new.items)) }
    ensures many { length sinks.new.items ≡ length sinks.old.items }
    ensures failed { IsErrOf result Stop.SaveFault → has_faulty K.faults sinks.new.items ≡ true }
{
    let mut replies = Vec::new(alloc);
    for command in commands {
        replies.push(answer_one(alloc, session, matchers, sinks, command)?)?;
    }
    Ok(replies)
}

// Answers one command.
fn answer_one<M: Matcher, K: Sink + Drop>(
    alloc: Global,
    session: &mut Session,
    matchers: &mut Vec<M>,
    sinks: &mut Vec<K>,
    command: &Command,
) -> Result<Reply, Stop>
    requires count { session.old.buffer.count < LAST }
    requires answered { is_answered (length sinks.old.items) command.now ≡ true }
    requires held { is_held session.old.snapshots command.now ≡ true }
    requires whole { AllByRecursion (λ k. IsWellFormed k.text) session.old.snapshots }
    requires watcher { watches_in (command.now ∷ []) ≤ length session.old.watchers.items }
    requires enough { patterns_in command.now ≤ length matchers.old.items }
    requires unheard { AllByRecursion (λ w. heard_count w.value ≡ 0) session.old.watchers.items }
    requires sound { IsSound (state_of session.old.buffer) }
    requires told { session.old.buffer.followers.watchers.told ≤ session.old.buffer.count }
    requires stands { Hears (HasHeard heard_count heard_list) session.old.buffer }
    ensures ok { IfOk result (λ reply. IsReply (state_of session.old.buffer) session.old.snapshots (map M.tells matchers.old.items) (map M.tells matchers.new.items) command.now
        (state_of session.new.buffer) reply) }
    ensures held { OnOk result (session.new.snapshots ≡ held_after (state_of session.old.buffer) command.now session.old.snapshots) }
    ensures saved { OnOk result (TakeInTurn (files_among (text_read command.now session.old.snapshots) (reads_in command.now)) (map K.taken sinks.old.items) (map K.taken sinks.new.items)) }
    ensures many { length sinks.new.items ≡ length sinks.old.items }
    ensures failed { IsErrOf result Stop.SaveFault → has_faulty K.faults sinks.new.items ≡ true }
    ensures watchers { session.new.watchers.items ≡ drop (watches_in (command.now ∷ [])) session.old.watchers.items }
    ensures sound { IsSound (state_of session.new.buffer) }
    ensures told { session.new.buffer.followers.watchers.told ≤ session.new.buffer.count }
    ensures stands { Hears (HasHeard heard_count heard_list) session.new.buffer }
{
    match command {
        Command::Read { snapshot, reads } | Command::Send { snapshot, reads } => {
            let reads = reads.as_slice();
            let answers = read(alloc, &session.snapshots, matchers, sinks, *snapshot, reads)?;
            if is_send(command) {
                session.snapshots.release(&mut session.buffer, *snapshot);
            }
            Ok(Reply::Answered {
                answers: Sequence::new(answers),
            })
        }
        _ => Ok(answer_other(alloc, session, command)?),
    }
}

// Whether a command ends the snapshot that it reads.
fn is_send(command: &Command) -> bool
    ensures { result ≡ is_send command.now }
{
    match command {
        Command::Send { .. } => true,
        _ => false,
    }
}

// Answers a command that reads no snapshot.
fn answer_other(alloc: Global, session: &mut Session, command: &Command) -> Result<Reply, NoMemory>
    requires other { is_read command.now ≡ false }
    requires count { session.old.buffer.count < LAST }
    requires answered { is_answered 0 command.now ≡ true }
    requires watcher { watches_in (command.now ∷ []) ≤ length session.old.watchers.items }
    requires unheard { AllByRecursion (λ w. heard_count w.value ≡ 0) session.old.watchers.items }
    requires sound { IsSound (state_of session.old.buffer) }
    requires told { session.old.buffer.followers.watchers.told ≤ session.old.buffer.count }
    requires stands { Hears (HasHeard heard_count heard_list) session.old.buffer }
    ensures reads { reads_in command.now ≡ [] }
    ensures ok { IfOk result (λ reply. (state_of session.new.buffer, reply) ≡ answered (state_of session.old.buffer) session.old.snapshots [] command.now) }
    ensures held { OnOk result (session.new.snapshots ≡ held_after (state_of session.old.buffer) command.now session.old.snapshots) }
    ensures watchers { session.new.watchers.items ≡ drop (watches_in (command.now ∷ [])) session.old.watchers.items }
    ensures sound { IsSound (state_of session.new.buffer) }
    ensures told { session.new.buffer.followers.watchers.told ≤ session.new.buffer.count }
    ensures stands { Hears (HasHeard heard_count heard_list) session.new.buffer }
{
    match command {
        Command::Watch { id } => {
            let watcher = session.watchers.remove(0);
            let (reply, _back) = session.buffer.watch(*id, watcher);
            Ok(reply)
        }
        Command::Unwatch { id } => {
            let (reply, _watcher) = session.buffer.unwatch(*id);
            Ok(reply)
        }
        Command::Take { snapshot } => {
            let version = session.snapshots.take(&mut session.buffer, *snapshot)?;
            Ok(Reply::Taken { version })
        }
        Command::Release { snapshot } => {
            session.snapshots.release(&mut session.buffer, *snapshot);
            Ok(Reply::Nothing)
        }
        Command::Squash => {
            session.buffer.squash()?;
            Ok(Reply::Nothing)
        }
        _ => session.buffer.play(alloc, command),
    }
}

// Answers reads of the live snapshot that has a number.
fn read<M: Matcher, K: Sink + Drop>(
    alloc: Global,
    snapshots: &Snapshots,
    matchers: &mut Vec<M>,
    sinks: &mut Vec<K>,
    number: u32,
    reads: &[Read],
) -> Result<Vec<ReadAnswer>, Stop>
    requires answered { list_all (is_answered_read (length sinks.old.items)) reads.now ≡ true }
    requires held { is_some (find (has_number number) snapshots.now) ≡ true }
    requires whole { AllByRecursion (λ k. IsWellFormed k.text) snapshots.now }
    requires enough { count_by is_pattern reads.now ≤ length matchers.old.items }
    ensures saved { OnOk result (TakeInTurn (files_among (kept_text number snapshots.now) reads.now) (map K.taken sinks.old.items) (map K.taken sinks.new.items)) }
    ensures many { length sinks.new.items ≡ length sinks.old.items }
    ensures failed { IsErrOf result Stop.SaveFault → has_faulty K.faults sinks.new.items ≡ true }
    ensures answers { IfOk result (λ answers. AreAnswers (kept_text number snapshots.now) (map M.tells matchers.old.items) (map M.tells matchers.new.items) reads.now answers.items) }
{
    match snapshots.find(number) {
        Some(snapshot) => answer_reads(alloc, snapshot, matchers, sinks, reads),
        None => unreachable!(),
    }
}
