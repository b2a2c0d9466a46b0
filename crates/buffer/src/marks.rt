//! Calls on marks.
ghost use Rattle.std.specs.Prelude.{◌≡◌, ◌+◌, ◌<◌, ◌≤◌, IfOk, OnErr};
ghost use Rattle.machine.specs.Machine.{add_mark, remove_mark, set_exclusive, mark_range, find_marks, compare_marks};
ghost use Rattle.points.specs.MarkList.{ids_where};
ghost use Rattle.machine.specs.Machine.{finds};
ghost use Rattle.buffer.specs.Seen.{answered, state_of};
ghost use Rattle.buffer.specs.Sound.{IsSound};

use crate::buffer::Buffer;
use machine::{CallRefusal, How, Reply, Sequence, Span};
use markers::{MarkerIndex, MarkerRefusal};
use points::{LAST, NoMemory, Range};
use watch::Watcher;

impl<W: Watcher> Buffer<W> {
    /// Marks the clipped range.
    pub fn mark(&mut self, id: u32, range: Range, exclusive: bool) -> Result<Reply, NoMemory>
        requires count { self.old.count < LAST }
        requires sound { IsSound (state_of self.old) }
        ensures ok { IfOk result (λ reply. (state_of self.new, reply) ≡ answered (state_of self.old) (add_mark id range exclusive)) }
        ensures err { OnErr result (state_of self.new ≡ state_of self.old) }
        ensures watchers { self.new.followers.watchers ≡ self.old.followers.watchers }
        ensures count { self.old.count ≤ self.new.count }
    {
        let clipped = Range::new(self.text.clip(range.start), self.text.clip(range.end));
        match self.followers.marks.insert(id, clipped, exclusive) {
            Ok(()) => Ok(self.done()),
            Err(MarkerRefusal::MarkTaken) => Ok(self.refused(CallRefusal::MarkTaken)),
            Err(MarkerRefusal::MarksFull) => Ok(self.refused(CallRefusal::MarksFull)),
            Err(MarkerRefusal::NoMemory) => Err(NoMemory),
        }
    }

    /// Takes a mark out.
    pub fn unmark(&mut self, id: u32) -> Reply
        requires { self.old.count < LAST }
        ensures ok { (state_of self.new, result) ≡ answered (state_of self.old) (remove_mark id) }
        ensures watchers { self.new.followers.watchers ≡ self.old.followers.watchers }
        ensures count { self.old.count ≤ self.new.count }
    {
        match self.followers.marks.remove(id) {
            Ok(()) => self.done(),
            Err(_) => self.refused(CallRefusal::MarkUnknown),
        }
    }

    /// Makes a mark exclusive or inclusive.
    pub fn set_exclusive(&mut self, id: u32, exclusive: bool) -> Reply
        requires { self.old.count < LAST }
        ensures ok { (state_of self.new, result) ≡ answered (state_of self.old) (set_exclusive id exclusive) }
        ensures watchers { self.new.followers.watchers ≡ self.old.followers.watchers }
        ensures count { self.old.count ≤ self.new.count }
    {
        match self.followers.marks.set_exclusive(id, exclusive) {
            Ok(()) => self.done(),
            Err(_) => self.refused(CallRefusal::MarkUnknown),
        }
    }

    /// Shows where a mark is, and whether it is exclusive.
    pub fn mark_range(&mut self, id: u32) -> Reply
        requires { self.old.count < LAST }
        ensures ok { (state_of self.new, result) ≡ answered (state_of self.old) (mark_range id) }
        ensures watchers { self.new.followers.watchers ≡ self.old.followers.watchers }
        ensures count { self.old.count ≤ self.new.count }
    {
        match self.followers.marks.range_of(id) {
            Ok((range, exclusive)) => Reply::Range {
                at: self.numbered(),
                exclusive,
                range: Span {
                    start: range.start,
                    end: range.end,
                },
            },
            Err(_) => self.refused(CallRefusal::MarkUnknown),
        }
    }

    /// Shows the ids of the marks that stand to the range as `how` says. The range isn't clipped.
    pub fn marks(&mut self, how: How, range: Range) -> Result<Reply, NoMemory>
        requires { self.old.count < LAST }
        ensures ok { IfOk result (λ reply. (state_of self.new, reply) ≡ answered (state_of self.old) (find_marks how range)) }
        ensures err { OnErr result (state_of self.new ≡ state_of self.old) }
        ensures watchers { self.new.followers.watchers ≡ self.old.followers.watchers }
        ensures count { self.old.count ≤ self.new.count }
    {
        let ids = found(&self.followers.marks, how, range)?;
        Ok(Reply::Marks {
            at: self.numbered(),
            ids: Sequence::new(ids),
        })
    }

    /// Shows how one mark stands to another.
    pub fn compare(&mut self, a: u32, b: u32) -> Reply
        requires { self.old.count < LAST }
        ensures ok { (state_of self.new, result) ≡ answered (state_of self.old) (compare_marks a b) }
        ensures watchers { self.new.followers.watchers ≡ self.old.followers.watchers }
        ensures count { self.old.count ≤ self.new.count }
    {
        match self.followers.marks.compare(a, b) {
            Ok(order) => Reply::Order {
                at: self.numbered(),
                order,
            },
            Err(_) => self.refused(CallRefusal::MarkUnknown),
        }
    }
}

// The ids of the marks that stand so to the range.
fn found(marks: &MarkerIndex, how: How, range: Range) -> Result<Vec<u32>, NoMemory>
    ensures { IfOk result (λ ids. ids.items ≡ ids_where (finds how range.start range.end) marks.now) }
{
    match how {
        How::Intersecting => marks.find_intersecting(range),
        How::Containing => marks.find_containing(range),
        How::ContainedIn => marks.find_contained_in(range),
        How::StartingIn => marks.find_starting_in(range),
        How::StartingAt => marks.find_starting_at(range.start),
        How::EndingIn => marks.find_ending_in(range),
        How::EndingAt => marks.find_ending_at(range.start),
    }
}
