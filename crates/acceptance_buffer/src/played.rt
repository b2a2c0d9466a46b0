//! Commands played by a buffer, and by the plain machine.
//!
//! The conditions of a buffer's calls say what its marks, steps and watchers stand for, which no code can test: so they go
//! from call to call here, and the tests see answers alone.
ghost use Rattle.std.specs.Prelude.{◌≤◌, ◌<◌, ◌^◌};
ghost use Rattle.watch.specs.Listed.{heard_count, heard_list};
ghost use Rattle.watch.specs.Seats.{HasHeard};
ghost use Rattle.buffer.specs.Seen.{Hears, state_of};
ghost use Rattle.buffer.specs.Sound.{IsSound};

use crate::asked::{Ask, command};
use buffer::Buffer;
use machine::{Command, Reply};
use plain_replay::Plain;
use points::{LAST, MAX_UNITS, Units};
use std::alloc::Global;
use watch::{ListWatcher, Watcher};

/// What a buffer replies to these in turn. So many watchers are there to be attached.
pub fn played(alloc: Global, text: &str, asks: &[Ask], watchers: u32) -> Option<Vec<Reply>> {
    let mut spare: Vec<Box<ListWatcher>> = Vec::new(alloc);
    for _ in 0..watchers {
        let watcher = ListWatcher::new(alloc, 0).ok()?;
        spare.push(Box::new(alloc, watcher).ok()?).ok()?;
    }
    let units = Units::from_str(alloc, text).ok()?;
    if units.len() > MAX_UNITS {
        return None;
    }
    match Buffer::open(alloc, text) {
        Ok(buffer) => play_all(alloc, buffer, asks, spare),
        Err(_) => None,
    }
}

// Plays these in turn.
fn play_all(
    alloc: Global,
    mut buffer: Buffer<ListWatcher>,
    asks: &[Ask],
    mut spare: Vec<Box<ListWatcher>>,
) -> Option<Vec<Reply>>
    requires sound { IsSound (state_of buffer) }
    requires told { buffer.followers.watchers.told ≤ buffer.count }
    requires stands { Hears (HasHeard heard_count heard_list) buffer }
{
    let mut replies = Vec::new(alloc);
    for ask in asks {
        let command = command(alloc, *ask)?;
        let reply = play_one(alloc, &mut buffer, &command, &mut spare)?;
        replies.push(reply).ok()?;
    }
    Some(replies)
}

// Plays one. To attach a watcher takes one of those that are there.
fn play_one(
    alloc: Global,
    buffer: &mut Buffer<ListWatcher>,
    command: &Command,
    spare: &mut Vec<Box<ListWatcher>>,
) -> Option<Reply>
    requires sound { IsSound (state_of buffer.old) }
    requires told { buffer.old.followers.watchers.told ≤ buffer.old.count }
    requires stands { Hears (HasHeard heard_count heard_list) buffer.old }
    ensures sound { IsSound (state_of buffer.new) }
    ensures told { buffer.new.followers.watchers.told ≤ buffer.new.count }
    ensures stands { Hears (HasHeard heard_count heard_list) buffer.new }
{
    match command {
        Command::Watch { id } => {
            let watcher = spare.pop()?;
            watch(buffer, *id, watcher)
        }
        Command::Unwatch { id } => unwatch(buffer, *id),
        _ => play(alloc, buffer, command),
    }
}

// Plays a call, or a squash, that brings no watcher.
fn play(alloc: Global, buffer: &mut Buffer<ListWatcher>, command: &Command) -> Option<Reply>
    requires sound { IsSound (state_of buffer.old) }
    requires told { buffer.old.followers.watchers.told ≤ buffer.old.count }
    requires stands { Hears (HasHeard heard_count heard_list) buffer.old }
    ensures sound { IsSound (state_of buffer.new) }
    ensures told { buffer.new.followers.watchers.told ≤ buffer.new.count }
    ensures stands { Hears (HasHeard heard_count heard_list) buffer.new }
{
    if buffer.count >= LAST {
        return None;
    }
    match command {
        Command::Squash => {
            buffer.squash().ok()?;
            Some(Reply::Nothing)
        }
        Command::Batch { .. }
        | Command::Watch { .. }
        | Command::Unwatch { .. }
        | Command::Take { .. }
        | Command::Read { .. }
        | Command::Send { .. }
        | Command::Release { .. } => None,
        _ => buffer.play(alloc, command).ok(),
    }
}

// Attaches the watcher. Where it is refused, it must come back.
fn watch(buffer: &mut Buffer<ListWatcher>, id: u32, watcher: Box<ListWatcher>) -> Option<Reply>
    requires sound { IsSound (state_of buffer.old) }
    requires told { buffer.old.followers.watchers.told ≤ buffer.old.count }
    requires stands { Hears (HasHeard heard_count heard_list) buffer.old }
    ensures sound { IsSound (state_of buffer.new) }
    ensures told { buffer.new.followers.watchers.told ≤ buffer.new.count }
    ensures stands { Hears (HasHeard heard_count heard_list) buffer.new }
{
    if buffer.count >= LAST || watcher.count() > 1 << 63 {
        return None;
    }
    let (reply, back) = buffer.watch(id, watcher);
    let is_refused = matches!(reply, Reply::Refused { .. });
    if is_refused == back.is_some() {
        Some(reply)
    } else {
        None
    }
}

// Takes the watcher off. It must have counted what is told.
fn unwatch(buffer: &mut Buffer<ListWatcher>, id: u32) -> Option<Reply>
    requires sound { IsSound (state_of buffer.old) }
    requires told { buffer.old.followers.watchers.told ≤ buffer.old.count }
    requires stands { Hears (HasHeard heard_count heard_list) buffer.old }
    ensures sound { IsSound (state_of buffer.new) }
    ensures told { buffer.new.followers.watchers.told ≤ buffer.new.count }
    ensures stands { Hears (HasHeard heard_count heard_list) buffer.new }
{
    if buffer.count >= LAST {
        return None;
    }
    let (reply, back) = buffer.unwatch(id);
    if counted(&back) == heard(&reply) {
        Some(reply)
    } else {
        None
    }
}

fn counted(watcher: &Option<Box<ListWatcher>>) -> Option<u64> {
    match watcher {
        Some(watcher) => Some(watcher.count()),
        None => None,
    }
}

fn heard(reply: &Reply) -> Option<u64> {
    match reply {
        Reply::Heard { at: _, heard } => Some(*heard),
        _ => None,
    }
}

/// What the plain machine replies to these in turn.
pub fn replayed(alloc: Global, text: &str, asks: &[Ask]) -> Option<Vec<Reply>> {
    let units = Units::from_str(alloc, text).ok()?;
    if units.len() > MAX_UNITS {
        return None;
    }
    let mut plain = Plain::start(alloc, text).ok()?;
    let mut replies = Vec::new(alloc);
    for ask in asks {
        let command = command(alloc, *ask)?;
        replies.push(replay(&mut plain, &command)?).ok()?;
    }
    Some(replies)
}

// What the plain machine replies. It has no layers to squash.
fn replay(plain: &mut Plain, command: &Command) -> Option<Reply> {
    if plain.count() >= 10_000 {
        return None;
    }
    match command {
        Command::Squash => Some(Reply::Nothing),
        Command::Take { .. }
        | Command::Read { .. }
        | Command::Send { .. }
        | Command::Release { .. } => None,
        _ => plain.step(command).ok(),
    }
}
