//! A command played as a call.
ghost use Rattle.std.specs.Prelude.{◌≡◌, ◌<◌, ◌≤◌, true, IfOk, OnErr};
ghost use Rattle.buffer.specs.Played.{is_on_marks, is_played, played};
ghost use Rattle.watch.specs.Seats.{HasHeard};
ghost use Rattle.buffer.specs.Seen.{Hears, state_of};
ghost use Rattle.buffer.specs.Sound.{IsSound};

use crate::buffer::Buffer;
use machine::{Command, Reply};
use points::{LAST, NoMemory};
use std::alloc::Global;
use watch::Watcher;

impl<W: Watcher> Buffer<W> {
    /// Plays a command that is a call of its own and brings no watcher: an edit, a look, an undo, a redo, or a call on
    /// marks.
    pub fn play(&mut self, alloc: Global, command: &Command) -> Result<Reply, NoMemory>
        requires played { is_played command.now ≡ true }
        requires count { self.old.count < LAST }
        requires sound { IsSound (state_of self.old) }
        requires told { self.old.followers.watchers.told ≤ self.old.count }
        requires stands { Hears (HasHeard W.count_of W.list_of) self.old }
        ensures ok { IfOk result (λ reply. (state_of self.new, reply) ≡ played (state_of self.old) command.now) }
        ensures err { OnErr result (state_of self.new ≡ state_of self.old) }
        ensures sound { IsSound (state_of self.new) }
        ensures told { self.new.followers.watchers.told ≤ self.new.count }
        ensures stands { Hears (HasHeard W.count_of W.list_of) self.new }
    {
        match command {
            Command::Edit { range, text } => self.edit(alloc, *range, text.as_str()),
            Command::Text { range, limit } => self.look(alloc, *range, *limit),
            Command::Undo => self.undo(),
            Command::Redo => self.redo(),
            _ => self.play_on_marks(command),
        }
    }

    // Plays a call on marks.
    fn play_on_marks(&mut self, command: &Command) -> Result<Reply, NoMemory>
        requires on_marks { is_on_marks command.now ≡ true }
        requires count { self.old.count < LAST }
        requires sound { IsSound (state_of self.old) }
        ensures ok { IfOk result (λ reply. (state_of self.new, reply) ≡ played (state_of self.old) command.now) }
        ensures err { OnErr result (state_of self.new ≡ state_of self.old) }
        ensures sound { IsSound (state_of self.new) }
        ensures watchers { self.new.followers.watchers ≡ self.old.followers.watchers }
        ensures count { self.old.count ≤ self.new.count }
    {
        match command {
            Command::Mark {
                id,
                range,
                exclusive,
            } => self.mark(*id, *range, *exclusive),
            Command::Unmark { id } => Ok(self.unmark(*id)),
            Command::Exclusive { id, value } => Ok(self.set_exclusive(*id, *value)),
            Command::Range { id } => Ok(self.mark_range(*id)),
            Command::Marks { how, range } => self.marks(*how, *range),
            Command::Compare { a, b } => Ok(self.compare(*a, *b)),
            _ => unreachable!(),
        }
    }
}
