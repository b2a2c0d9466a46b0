//! A text with its marks and its watchers, which a change changes together, and the numbers of its calls.
ghost use Rattle.std.specs.Prelude.{◌≡◌, ◌+◌, ◌<◌, ◌≤◌, ◌^◌, length, IfOk};
ghost use Rattle.points.specs.Text.{replaced};
ghost use Rattle.points.specs.Place.{point_at};
ghost use Rattle.points.specs.declared.limits.TheConstants.{MAX_UNITS};
ghost use Rattle.machine.specs.Machine.{changed, part_of, put, counted, opened};
ghost use Rattle.plain_replay.specs.Standing.{IsSound, CanPut};

use crate::change::Part;
use crate::clip::point_at;
use crate::movement::{all_moved, hit_counts};
use crate::watchers::Watchers;
use points::{Mark, NoMemory, Point, Splice, Units, offset_of};
use std::alloc::Global;
use std::marker::Model;

/// A text with its marks, its watchers and its numbers. Contracts see a state of the plain machine without steps.
#[derive(Debug, Drop)]
pub(crate) struct Body {
    text: Vec<u16>,
    marks: Vec<Mark>,
    watchers: Watchers,
    /// How many calls were numbered.
    count: u64,
    /// The number of the last call that changed the text.
    version: u64,
}

impl Model for Body {
    ghost use Rattle.std.specs.Prelude.{[]};
    ghost use Rattle.machine.specs.Machine.{State};

    ghost Value = { State };

    ghost use Rattle.plain_replay.specs.Standing.{IsSound};

    ghost view = { λ b. record { text = b.text.items; marks = b.marks.items; past = []; future = []; watchers = b.watchers; count = b.count; version = b.version } };

    ghost invariant = { λ b. IsSound b.text.items b.marks.items };
}

impl Body {
    /// A text that is opened.
    pub(crate) fn open(alloc: Global, text: Units) -> Self
        requires { length text ≤ MAX_UNITS }
        ensures { result ≡ opened text }
    {
        Body {
            text: text.into_vec(),
            marks: Vec::new(alloc),
            watchers: Watchers::new(alloc),
            count: 0,
            version: 0,
        }
    }

    /// The units.
    pub(crate) fn text(&self) -> &[u16]
        ensures value { result.now ≡ self.now.text }
        ensures sound { IsSound self.now.text self.now.marks }
    {
        self.text.as_slice()
    }

    /// The marks.
    pub(crate) fn marks(&self) -> &[Mark]
        ensures value { result.now ≡ self.now.marks }
        ensures sound { IsSound self.now.text self.now.marks }
    {
        self.marks.as_slice()
    }

    /// The watchers.
    pub(crate) fn watchers(&self) -> &Watchers
        ensures { result.now ≡ self.now.watchers }
    {
        &self.watchers
    }

    /// How many calls were numbered.
    pub(crate) fn count(&self) -> u64
        ensures number { result ≡ self.now.count }
        ensures sound { IsSound self.now.text self.now.marks }
    {
        self.count
    }

    /// The number of the last call that changed the text.
    pub(crate) fn version(&self) -> u64
        ensures { result ≡ self.now.version }
    {
        self.version
    }

    /// The allocator.
    pub(crate) fn alloc(&self) -> Global {
        *self.text.allocator()
    }

    /// Puts other marks in place of all.
    pub(crate) fn set_marks(&mut self, marks: Vec<Mark>)
        requires { IsSound self.old.text marks.items }
        ensures { self.new ≡ record self.old { marks = marks.items } }
    {
        self.marks = marks;
    }

    /// Puts other watchers in place of all.
    pub(crate) fn set_watchers(&mut self, watchers: Watchers)
        ensures { self.new ≡ record self.old { watchers = watchers } }
    {
        self.watchers = watchers;
    }

    /// Numbers one more call.
    pub(crate) fn number(&mut self) -> u64
        requires { self.old.count < 2 ^ 57 }
        ensures body { self.new ≡ counted self.old }
        ensures number { result ≡ self.old.count + 1 }
    {
        self.count += 1;
        self.count
    }

    /// The same once more.
    pub(crate) fn copy(&self) -> Result<Body, NoMemory>
        ensures { IfOk result (λ body. body ≡ self.now) }
    {
        let alloc = *self.text.allocator();
        let text = Vec::from_slice(alloc, self.text.as_slice())?;
        let marks = Vec::from_slice(alloc, self.marks.as_slice())?;
        let watchers = self.watchers.copy(alloc)?;
        Ok(Body {
            text,
            marks,
            watchers,
            count: self.count,
            version: self.version,
        })
    }

    /// What is made of it where the units from one offset up to another give way to `new`, and what that answers.
    pub(crate) fn changed(
        &self,
        from: usize,
        to: usize,
        new: &[u16],
    ) -> Result<(Body, Part), NoMemory>
        requires order { from ≤ to }
        requires within { to ≤ length self.now.text }
        requires short { length (replaced self.now.text from to new.now) ≤ MAX_UNITS }
        requires count { self.now.count < 2 ^ 57 }
        ensures body { IfOk result (λ r. r.0 ≡ changed self.now from to new.now) }
        ensures part { IfOk result (λ r. r.1 ≡ part_of self.now from to new.now) }
    {
        let alloc = *self.text.allocator();
        let text = replaced(alloc, self.text.as_slice(), from, to, new)?;
        let end = from + new.len();
        let splice = splice_between(self.text.as_slice(), text.as_slice(), from, to, end);
        let hits = hit_counts(self.marks.as_slice(), splice);
        let marks = all_moved(alloc, self.marks.as_slice(), splice)?;
        let watchers = self.watchers.told(alloc, splice)?;
        let body = Body {
            text,
            marks,
            watchers,
            count: self.count,
            version: self.count + 1,
        };
        Ok((body, Part { splice, hits }))
    }

    /// What is made of it where the units `old` at a point give way to `new`.
    pub(crate) fn put(
        &self,
        start: Point,
        old: &[u16],
        new: &[u16],
    ) -> Result<(Body, Part), NoMemory>
        requires can { CanPut self.now.text start old.now new.now }
        requires count { self.now.count < 2 ^ 57 }
        ensures body { IfOk result (λ r. r.0 ≡ (put self.now start old.now new.now).0) }
        ensures part { IfOk result (λ r. r.1 ≡ (put self.now start old.now new.now).1) }
    {
        let from = offset_of(self.text(), start).unwrap_or(0);
        self.changed(from, from + old.len(), new)
    }
}

// The splice between a text and the changed one, where the new units of that end at `end`.
fn splice_between(units: &[u16], changed: &[u16], from: usize, to: usize, end: usize) -> Splice
    requires order { from ≤ to }
    requires within { to ≤ length units.now }
    requires end { end ≤ length changed.now }
    requires short { length units.now ≤ MAX_UNITS }
    requires fits { length changed.now ≤ MAX_UNITS }
    ensures { result ≡ record { start = point_at units.now from; old_end = point_at units.now to; new_end = point_at changed.now end } }
{
    Splice {
        start: point_at(units, from),
        old_end: point_at(units, to),
        new_end: point_at(changed, end),
    }
}

// The units in which those from one offset up to another gave way to `new`.
fn replaced(
    alloc: Global,
    units: &[u16],
    from: usize,
    to: usize,
    new: &[u16],
) -> Result<Vec<u16>, NoMemory>
    requires order { from ≤ to }
    requires within { to ≤ length units.now }
    ensures { IfOk result (λ v. v.items ≡ replaced units.now from to new.now) }
{
    let mut all = Vec::from_slice(alloc, &units[..from])?;
    all.extend_from_slice(new)?;
    all.extend_from_slice(&units[to..])?;
    Ok(all)
}
