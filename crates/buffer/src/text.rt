//! Edits and looks.
ghost use Rattle.std.specs.Prelude.{◌≡◌, ◌+◌, ◌-◌, ◌<◌, ◌≤◌, ◌^◌, ◌==◌, ◌&&◌, ◌∷◌, [], length, min, nat_lt, IfOk, OnOk, OnErr};
ghost use Rattle.points.specs.Text.{utf16_of};
ghost use Rattle.machine.specs.Machine.{edit, look, shown, counted, with_step, changed, change_of, part_of, no_hits};
ghost use Rattle.machine.specs.Answers.{edited_reply};
ghost use Rattle.layers.specs.Building.{AreSpots};
ghost use Rattle.watch.specs.Seats.{HasHeard};
ghost use Rattle.buffer.specs.Seen.{Hears, answered, state_of};
ghost use Rattle.buffer.specs.Sound.{IsSound};

use crate::buffer::Buffer;
use crate::change::{change, edited_reply, splice_by};
use chains::Spot;
use line_text::splits_pair;
use machine::{CallRefusal, Reply, Text};
use points::{HitCounts, LAST, MAX_UNITS, NoMemory, Point, Range, Splice, Units};
use std::alloc::Global;
use watch::Watcher;

impl<W: Watcher> Buffer<W> {
    /// Replaces the clipped range by the text.
    pub fn edit(&mut self, alloc: Global, range: Range, text: &str) -> Result<Reply, NoMemory>
        requires count { self.old.count < LAST }
        requires sound { IsSound (state_of self.old) }
        requires told { self.old.followers.watchers.told ≤ self.old.count }
        requires stands { Hears (HasHeard W.count_of W.list_of) self.old }
        ensures ok { IfOk result (λ reply. (state_of self.new, reply) ≡ answered (state_of self.old) (edit (range, utf16_of text.now))) }
        ensures err { OnErr result (state_of self.new ≡ state_of self.old) }
        ensures told { self.new.followers.watchers.told ≤ self.new.count }
        ensures stands { Hears (HasHeard W.count_of W.list_of) self.new }
    {
        let (from, to) = self.text.spots(range);
        let new_text = Units::from_str(alloc, text)?;
        if is_nothing(from.offset, to.offset, new_text.len()) {
            return Ok(self.unchanged(from.point));
        }
        let kept = self.text.len() - (to.offset - from.offset) as usize;
        if is_too_long(kept, new_text.len()) {
            return Ok(self.refused(CallRefusal::TooLong));
        }
        self.make(from, to, new_text)
    }

    /// Shows the first `limit` units of the clipped range, one fewer where that would part a surrogate pair.
    pub fn look(&mut self, alloc: Global, range: Range, limit: u32) -> Result<Reply, NoMemory>
        requires { self.old.count < LAST }
        ensures ok { IfOk result (λ reply. (state_of self.new, reply) ≡ answered (state_of self.old) (look range limit)) }
        ensures err { OnErr result (state_of self.new ≡ state_of self.old) }
        ensures followers { self.new.followers ≡ self.old.followers }
        ensures count { self.old.count ≤ self.new.count }
    {
        let (start, end) = self.text.spots(range);
        let (from, to) = (start.offset as usize, end.offset as usize);
        let units = self.text.units(from, read_end(from, to, limit as usize))?;
        let text = String::from_utf16_lossy(alloc, shown(units.as_slice(), limit as usize))?;
        Ok(Reply::Text {
            at: self.numbered(),
            text: Text::new(text),
            units: (to - from) as u64,
        })
    }

    // An edit at a point that changes nothing.
    fn unchanged(&mut self, point: Point) -> Reply
        requires { self.old.count < LAST }
        ensures reply { result ≡ edited_reply (self.old.count + 1) (record { from = point; to = point; end = point; hits = no_hits }) }
        ensures new { self.new ≡ record self.old { count = self.old.count + 1 } }
    {
        let place = Splice {
            start: point,
            old_end: point,
            new_end: point,
        };
        edited_reply(self.numbered(), place, HitCounts::default())
    }

    // An edit between two places that makes a change.
    fn make(&mut self, from: Spot, to: Spot, new_text: Units) -> Result<Reply, NoMemory>
        requires count { self.old.count < LAST }
        requires places { AreSpots self.old.text from to }
        requires fits { length self.old.text + length new_text ≤ MAX_UNITS + (to.offset - from.offset) }
        requires sound { IsSound (state_of self.old) }
        requires told { self.old.followers.watchers.told ≤ self.old.count }
        requires stands { Hears (HasHeard W.count_of W.list_of) self.old }
        ensures state { OnOk result (state_of self.new ≡ counted (with_step (change_of (state_of self.old) from.offset to.offset new_text ∷ [])
            (changed (state_of self.old) from.offset to.offset new_text))) }
        ensures reply { IfOk result (λ reply. reply ≡ edited_reply (self.old.count + 1) (part_of (state_of self.old) from.offset to.offset new_text)) }
        ensures err { OnErr result (state_of self.new ≡ state_of self.old) }
        ensures told { self.new.followers.watchers.told ≤ self.new.count }
        ensures stands { Hears (HasHeard W.count_of W.list_of) self.new }
    {
        let old_text = self.text.units(from.offset as usize, to.offset as usize)?;
        let change = change(&mut self.text, from, to, old_text, new_text)?;
        let place = splice_by(&change);
        let hits = self.followers.edited(change);
        self.version = self.numbered();
        Ok(edited_reply(self.version, place, hits))
    }
}

// Whether an edit from one offset to another by so many units changes nothing.
fn is_nothing(from: u32, to: u32, len: usize) -> bool
    ensures { result ≡ ((from == to) && (len == 0)) }
{
    from == to && len == 0
}

// Whether a text of what is kept and of so many new units is too long.
fn is_too_long(kept: usize, len: usize) -> bool
    requires { kept ≤ MAX_UNITS }
    ensures { result ≡ nat_lt MAX_UNITS (kept + len) }
{
    len > MAX_UNITS - kept
}

// The end of what is read to show so many units: one more, since it may be the other half of a pair.
fn read_end(from: usize, to: usize, limit: usize) -> usize
    requires order { from ≤ to }
    requires limit { limit < 2 ^ 32 }
    ensures value { result ≡ from + min (to - from) (limit + 1) }
    ensures within { result ≤ to }
    ensures order { from ≤ result }
{
    from + (to - from).min(limit + 1)
}

/// The first units, at most `limit`, and one fewer where that would part a surrogate pair.
pub(crate) fn shown(units: &[u16], limit: usize) -> &[u16]
    ensures { result.now ≡ shown limit units.now }
{
    let end = limit.min(units.len());
    if splits_pair(units, end) {
        &units[..end - 1]
    } else {
        &units[..end]
    }
}
