//! Steps taken back and made again.
ghost use Rattle.std.specs.Prelude.{◌≡◌, ◌+◌, ◌-◌, ◌<◌, ◌≤◌, ◌++◌, ◌∷◌, [], List, ℕ, length, drop, take, unwrap_or, IfOk, OnOk, OnErr};
ghost use Rattle.points.specs.Text.{replaced};
ghost use Rattle.points.specs.Place.{offset_of};
ghost use Rattle.machine.specs.Machine.{undo, redo, counted, splice_at, changed, part_of};
ghost use Rattle.machine.specs.Answers.{edited_reply};
ghost use Rattle.followers.specs.Following.{splice_by};
ghost use Rattle.watch.specs.Seats.{HasHeard};
ghost use Rattle.buffer.specs.Seen.{Hears, answered, state_of};
ghost use Rattle.buffer.specs.Sound.{IsSound, Leads};

use crate::buffer::Buffer;
use crate::change::{change, edited_reply, splice_by};
use crate::layered_text::LayeredText;
use followers::Replacement;
use machine::{CallRefusal, Reply};
use patch::Change;
use points::{LAST, MAX_UNITS, NoMemory};
use watch::Watcher;

impl<W: Watcher> Buffer<W> {
    /// Takes the last step back, without clipping.
    pub fn undo(&mut self) -> Result<Reply, NoMemory>
        requires count { self.old.count < LAST }
        requires sound { IsSound (state_of self.old) }
        requires told { self.old.followers.watchers.told ≤ self.old.count }
        requires stands { Hears (HasHeard W.count_of W.list_of) self.old }
        ensures ok { IfOk result (λ reply. (state_of self.new, reply) ≡ answered (state_of self.old) undo) }
        ensures err { OnErr result (state_of self.new ≡ state_of self.old) }
        ensures told { self.new.followers.watchers.told ≤ self.new.count }
        ensures stands { Hears (HasHeard W.count_of W.list_of) self.new }
    {
        let back = match self.followers.to_undo()? {
            Some(back) => back,
            None => return Ok(self.refused(CallRefusal::Nothing)),
        };
        let change = put_in(&mut self.text, back)?;
        let hits = self.followers.undone(&change);
        self.version = self.numbered();
        Ok(edited_reply(self.version, splice_by(&change), hits))
    }

    /// Makes the step again that was taken back last, without clipping.
    pub fn redo(&mut self) -> Result<Reply, NoMemory>
        requires count { self.old.count < LAST }
        requires sound { IsSound (state_of self.old) }
        requires told { self.old.followers.watchers.told ≤ self.old.count }
        requires stands { Hears (HasHeard W.count_of W.list_of) self.old }
        ensures ok { IfOk result (λ reply. (state_of self.new, reply) ≡ answered (state_of self.old) redo) }
        ensures err { OnErr result (state_of self.new ≡ state_of self.old) }
        ensures told { self.new.followers.watchers.told ≤ self.new.count }
        ensures stands { Hears (HasHeard W.count_of W.list_of) self.new }
    {
        let on = match self.followers.to_redo()? {
            Some(on) => on,
            None => return Ok(self.refused(CallRefusal::Nothing)),
        };
        let change = put_in(&mut self.text, on)?;
        let hits = self.followers.redone(&change);
        self.version = self.numbered();
        Ok(edited_reply(self.version, splice_by(&change), hits))
    }
}

// Makes a replacement where its old units stand.
fn put_in(text: &mut LayeredText, step: Replacement) -> Result<Change, NoMemory>
    requires stands { (u : List ℕ) × Leads step.start step.old_text step.new_text text.old u }
    requires short { length text.old ≤ MAX_UNITS }
    ensures ok { OnOk result (let i = unwrap_or (offset_of text.old step.start) 0 in
        text.new ≡ replaced text.old i (i + length step.old_text) step.new_text) }
    ensures err { OnErr result (text.new ≡ text.old) }
    ensures splice { IfOk result (λ c. let i = unwrap_or (offset_of text.old step.start) 0 in
        splice_by c ≡ splice_at text.old i (i + length step.old_text) step.new_text) }
    ensures start { IfOk result (λ c. c.new_range.start ≡ c.old_range.start) }
{
    let from = text.spot_of(step.start);
    let to = text.spot_at(from.offset as usize + step.old_text.len());
    change(text, from, to, step.old_text, step.new_text)
}
