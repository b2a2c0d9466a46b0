//! The plain machine: a text, its marks and its watchers, and the steps that can be taken back and made again.
ghost use Rattle.std.specs.Prelude.{◌≡◌, ◌+◌, ◌-◌, ◌<◌, ◌≤◌, ◌^◌, [], length, map, IsSome, IfOk, OnOk, OnErr};
ghost use Rattle.points.specs.Text.{utf16_of};
ghost use Rattle.points.specs.declared.limits.TheConstants.{MAX_UNITS};
ghost use Rattle.machine.specs.Machine.{opened, edit, batch, undo, redo, counted, with_step};
ghost use Rattle.machine.specs.Machine as machine;
ghost use Rattle.machine.specs.Answers.{call_of, edit_of, reply_of};
ghost use Rattle.plain_replay.specs.Standing.{IsSound, Leads, whole};
ghost use Rattle.plain_replay.specs.Replayed.{replayed, replied};

use crate::body::Body;
use crate::change::{Change, Step};
use crate::progress::{Progress, member, members};
use crate::replies::{batched_reply, edited_reply};
use crate::steps::{cross, first, redone, undone};
use machine::{BatchEdit, CallRefusal, Command, Reply};
use points::{MAX_STEPS, NoMemory, Range, Units};
use std::alloc::Global;
use std::marker::Model;

/// The plain machine as running code, which contracts see as its state.
#[derive(Debug, Drop)]
pub struct Plain {
    pub(crate) body: Body,
    // The newest step stands first, also of those that can be made again.
    past: Vec<Step>,
    future: Vec<Step>,
}

impl Model for Plain {
    ghost use Rattle.machine.specs.Machine.{State};

    ghost Value = { State };

    ghost use Rattle.plain_replay.specs.Standing.{HasSteps, whole};

    ghost view = { λ p. whole p.body p.past.items p.future.items };

    ghost invariant = { λ p. HasSteps p.body.text p.past.items p.future.items };
}

impl Plain {
    /// A text that is opened.
    pub fn start(alloc: Global, text: &str) -> Result<Self, NoMemory>
        requires { length (utf16_of text.now) ≤ MAX_UNITS }
        ensures { IfOk result (λ p. p ≡ opened (utf16_of text.now)) }
    {
        let text = Units::from_str(alloc, text)?;
        Ok(Plain {
            body: Body::open(alloc, text),
            past: Vec::new(alloc),
            future: Vec::new(alloc),
        })
    }

    /// The UTF-16 units of the text, lent.
    pub fn text(&self) -> &[u16]
        ensures value { result.now ≡ self.now.text }
        ensures short { length self.now.text ≤ MAX_UNITS }
    {
        self.body.text()
    }

    /// How many calls were numbered.
    pub fn count(&self) -> u64
        ensures { result ≡ self.now.count }
    {
        self.body.count()
    }

    /// The number of the last call that changed the text, or 0.
    pub fn version(&self) -> u64
        ensures { result ≡ self.now.version }
    {
        self.body.version()
    }

    /// Answers a command that is numbered, in the form of a transcript of version 2.
    pub fn step(&mut self, command: &Command) -> Result<Reply, NoMemory>
        requires numbered { IsSome (call_of command.now) }
        requires count { self.old.count < 2 ^ 57 - 1 }
        ensures ok { IfOk result (λ r. (self.new, r) ≡ replied self.old (call_of command.now)) }
        ensures err { OnErr result (self.new ≡ self.old) }
    {
        match command {
            Command::Edit { range, text } => self.edit(*range, text.as_str()),
            Command::Batch { edits } => self.batch(edits.as_slice()),
            Command::Undo => self.undo(),
            Command::Redo => self.redo(),
            Command::Text { range, limit } => self.look(*range, *limit),
            Command::Mark {
                id,
                range,
                exclusive,
            } => self.mark(*id, *range, *exclusive),
            Command::Unmark { id } => self.unmark(*id),
            Command::Exclusive { id, value } => self.set_exclusive(*id, *value),
            Command::Range { id } => Ok(self.mark_range(*id)),
            Command::Marks { how, range } => self.find_marks(*how, *range),
            Command::Compare { a, b } => Ok(self.compare(*a, *b)),
            Command::Watch { id } => self.watch(*id),
            Command::Unwatch { id } => self.unwatch(*id),
            Command::Take { .. }
            | Command::Read { .. }
            | Command::Send { .. }
            | Command::Release { .. }
            | Command::Squash => unreachable!(),
        }
    }

    /// Edits a range.
    pub(crate) fn edit(&mut self, range: Range, text: &str) -> Result<Reply, NoMemory>
        requires { self.old.count < 2 ^ 57 }
        ensures ok { IfOk result (λ reply. (self.new, reply) ≡ replayed self.old (edit (range, utf16_of text.now))) }
        ensures err { OnErr result (self.new ≡ self.old) }
    {
        let done = match member(&self.body, range, text)? {
            None => return Ok(self.refused(CallRefusal::TooLong)),
            Some(done) => done,
        };
        let Progress { body, made, parts } = done;
        let reply = edited_reply(body.alloc(), self.body.count() + 1, parts.as_slice())?;
        self.take_over(body, made)?;
        Ok(reply)
    }

    /// Edits several ranges in turn, as one step.
    pub(crate) fn batch(&mut self, edits: &[BatchEdit]) -> Result<Reply, NoMemory>
        requires { self.old.count < 2 ^ 57 }
        ensures ok { IfOk result (λ reply. (self.new, reply) ≡ replayed self.old (batch (map edit_of edits.now))) }
        ensures err { OnErr result (self.new ≡ self.old) }
    {
        let done = match members(&self.body, edits)? {
            None => return Ok(self.refused(CallRefusal::TooLong)),
            Some(done) => done,
        };
        let Progress { body, made, parts } = done;
        let reply = batched_reply(body.alloc(), self.body.count() + 1, parts.as_slice())?;
        self.take_over(body, made)?;
        Ok(reply)
    }

    /// Takes the newest step back.
    pub(crate) fn undo(&mut self) -> Result<Reply, NoMemory>
        requires { self.old.count < 2 ^ 57 }
        ensures ok { IfOk result (λ reply. (self.new, reply) ≡ replayed self.old undo) }
        ensures err { OnErr result (self.new ≡ self.old) }
    {
        if self.past.is_empty() {
            return Ok(self.refused(CallRefusal::Nothing));
        }
        let (mut body, parts) = undone(&self.body, first(self.past.as_slice()))?;
        let at = body.number();
        let reply = batched_reply(body.alloc(), at, parts.as_slice())?;
        cross(&mut self.past, &mut self.future)?;
        self.body = body;
        Ok(reply)
    }

    /// Makes the step again that was taken back last.
    pub(crate) fn redo(&mut self) -> Result<Reply, NoMemory>
        requires { self.old.count < 2 ^ 57 }
        ensures ok { IfOk result (λ reply. (self.new, reply) ≡ replayed self.old redo) }
        ensures err { OnErr result (self.new ≡ self.old) }
    {
        if self.future.is_empty() {
            return Ok(self.refused(CallRefusal::Nothing));
        }
        let (mut body, parts) = redone(&self.body, first(self.future.as_slice()))?;
        let at = body.number();
        let reply = batched_reply(body.alloc(), at, parts.as_slice())?;
        cross(&mut self.future, &mut self.past)?;
        self.body = body;
        Ok(reply)
    }

    /// Numbers a call that is refused.
    pub(crate) fn refused(&mut self, no: CallRefusal) -> Reply
        requires { self.old.count < 2 ^ 57 }
        ensures state { self.new ≡ counted self.old }
        ensures reply { result ≡ reply_of 2 (self.old.count + 1) (machine.Refused no) }
    {
        let at = self.body.number();
        Reply::Refused { at, no }
    }

    // Takes the body over that edits made of its own, with their changes as a step.
    fn take_over(&mut self, body: Body, made: Vec<Change>) -> Result<(), NoMemory>
        requires leads { Leads self.old.text made.items body.text }
        requires count { body.count < 2 ^ 57 }
        ensures ok { OnOk result (self.new ≡ counted (with_step made.items (whole body self.old.past self.old.future))) }
        ensures err { OnErr result (self.new ≡ self.old) }
    {
        let mut body = body;
        body.number();
        if made.is_empty() {
            self.body = body;
            return Ok(());
        }
        self.past.insert(0, Step { changes: made })?;
        self.past.truncate(MAX_STEPS);
        self.future.clear();
        self.body = body;
        Ok(())
    }
}
