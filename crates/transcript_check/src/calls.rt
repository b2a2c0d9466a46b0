//! The numbered calls of a transcript with their numbers and replies, session after session.
ghost use Rattle.std.specs.Prelude.{◌≡◌, ◌++◌, [], is_some, IfOk, OnOk};
ghost use Rattle.machine.specs.Answers as answers;
ghost use Rattle.machine.specs.Lawful as lawful;
ghost use Rattle.machine.specs.Lawful.{with_entry, session_entries};

use machine::{Command, Reply, Sequence};
use points::NoMemory;
use snapshot_check::{lesser, number_of};
use std::alloc::Global;
use std::marker::Model;

/// A numbered call with its number and its reply. Contracts see it as an entry.
#[derive(Drop)]
pub(crate) struct Called<'a> {
    command: &'a Command,
    at: u64,
    reply: &'a Reply,
}

impl<'a> Model for Called<'a> {
    ghost use Rattle.std.specs.Prelude.{◌≡◌, true, is_some, unwrap_or};
    ghost use Rattle.machine.specs.Machine.{undo};
    ghost use Rattle.machine.specs.Answers.{call_of};
    ghost use Rattle.machine.specs.Lawful.{Entry};

    ghost Value = { Entry };

    ghost view = { λ c. record { call = unwrap_or (call_of c.command.now) undo; at = c.at; reply = c.reply.now } };

    ghost invariant = { λ c. is_some (call_of c.command.now) ≡ true };
}

impl<'a> Called<'a> {
    /// The number.
    pub(crate) fn at(&self) -> u64
        ensures { result ≡ self.now.at }
    {
        self.at
    }

    /// The reply.
    pub(crate) fn reply(&self) -> &Reply
        ensures { result.now ≡ self.now.reply }
    {
        self.reply
    }

    /// The command.
    pub(crate) fn command(&self) -> &Command
        ensures { answers.call_of result.now ≡ Some self.now.call }
    {
        self.command
    }
}

/// The numbered calls of all sessions, in script order.
pub(crate) fn entries<'a>(
    alloc: Global,
    sessions: &'a [Sequence<Command>],
    replies: &'a [Sequence<Reply>],
) -> Result<Vec<Called<'a>>, NoMemory>
    ensures { IfOk result (λ v. v.items ≡ lawful.entries sessions.now replies.now) }
{
    let mut all = Vec::new(alloc);
    let count = lesser(sessions.len(), replies.len());
    for i in 0..count {
        add_session(&mut all, sessions[i].as_slice(), replies[i].as_slice())?;
    }
    Ok(all)
}

// Adds the numbered calls of a session.
fn add_session<'a>(
    all: &mut Vec<Called<'a>>,
    commands: &'a [Command],
    replies: &'a [Reply],
) -> Result<(), NoMemory>
    ensures { OnOk result (all.new.items ≡ all.old.items ++ session_entries commands.now replies.now) }
{
    let count = lesser(commands.len(), replies.len());
    for i in 0..count {
        add(all, &commands[i], &replies[i])?;
    }
    Ok(())
}

// Adds a command with its reply, where it is a numbered call and the reply has a number.
fn add<'a>(
    all: &mut Vec<Called<'a>>,
    command: &'a Command,
    reply: &'a Reply,
) -> Result<(), NoMemory>
    ensures { OnOk result (all.new.items ≡ all.old.items ++ with_entry (answers.call_of command.now) (answers.number_of reply.now) reply.now []) }
{
    if !is_call(command) {
        return Ok(());
    }
    match number_of(reply) {
        None => Ok(()),
        Some(at) => {
            all.push(Called { command, at, reply })?;
            Ok(())
        }
    }
}

// The command is a numbered call.
fn is_call(command: &Command) -> bool
    ensures { result ≡ is_some (answers.call_of command.now) }
{
    match command {
        Command::Take { .. }
        | Command::Read { .. }
        | Command::Send { .. }
        | Command::Release { .. }
        | Command::Squash => false,
        _ => true,
    }
}
