//! The calls on marks and watchers, and the look: none of them changes the text.
ghost use Rattle.std.specs.Prelude.{◌≡◌, ◌+◌, ◌<◌, ◌^◌, OnOk, OnErr, IfOk};
ghost use Rattle.machine.specs.Machine.{look, add_mark, remove_mark, set_exclusive, mark_range, find_marks, compare_marks, watch, unwatch, with_marks, with_watchers, Done};
ghost use Rattle.machine.specs.Machine as machine;
ghost use Rattle.machine.specs.Answers.{reply_of};
ghost use Rattle.plain_replay.specs.Standing.{IsSound};
ghost use Rattle.plain_replay.specs.Replayed.{replayed};

use crate::clip::{clip, shown, span};
use crate::marks;
use crate::plain::Plain;
use crate::watchers::Watchers;
use machine::{CallRefusal, How, Reply, Sequence, Span, Text};
use points::{MAX_MARKS, MAX_WATCHERS, Mark, NoMemory, Range};

impl Plain {
    /// Shows the first `limit` units of the clipped range.
    pub(crate) fn look(&mut self, range: Range, limit: u32) -> Result<Reply, NoMemory>
        requires { self.old.count < 2 ^ 57 }
        ensures ok { IfOk result (λ reply. (self.new, reply) ≡ replayed self.old (look range limit)) }
        ensures err { OnErr result (self.new ≡ self.old) }
    {
        let units = self.body.text();
        let (from, to) = span(units, range);
        let units = shown(&units[from..to], limit as usize);
        let text = String::from_utf16_lossy(self.body.alloc(), units)?;
        Ok(Reply::Text {
            at: self.body.number(),
            text: Text::new(text),
            units: (to - from) as u64,
        })
    }

    /// Marks the clipped range.
    pub(crate) fn mark(&mut self, id: u32, range: Range, exclusive: bool) -> Result<Reply, NoMemory>
        requires { self.old.count < 2 ^ 57 }
        ensures ok { IfOk result (λ reply. (self.new, reply) ≡ replayed self.old (add_mark id range exclusive)) }
        ensures err { OnErr result (self.new ≡ self.old) }
    {
        let new = Mark {
            id,
            start: clip(self.body.text(), range.start),
            end: clip(self.body.text(), range.end),
            exclusive,
        };
        let known = self.body.marks();
        match marks::mark_with(known, id) {
            Some(_) => return Ok(self.refused(CallRefusal::MarkTaken)),
            None => {}
        }
        if known.len() >= MAX_MARKS {
            return Ok(self.refused(CallRefusal::MarksFull));
        }
        let all = marks::with_mark(self.body.alloc(), known, new)?;
        Ok(self.put_marks(all))
    }

    /// Removes a mark.
    pub(crate) fn unmark(&mut self, id: u32) -> Result<Reply, NoMemory>
        requires { self.old.count < 2 ^ 57 }
        ensures ok { IfOk result (λ reply. (self.new, reply) ≡ replayed self.old (remove_mark id)) }
        ensures err { OnErr result (self.new ≡ self.old) }
    {
        let known = self.body.marks();
        match marks::mark_with(known, id) {
            None => Ok(self.refused(CallRefusal::MarkUnknown)),
            Some(_) => {
                let others = marks::without_mark(self.body.alloc(), known, id)?;
                Ok(self.put_marks(others))
            }
        }
    }

    /// Makes a mark exclusive or inclusive.
    pub(crate) fn set_exclusive(&mut self, id: u32, exclusive: bool) -> Result<Reply, NoMemory>
        requires { self.old.count < 2 ^ 57 }
        ensures ok { IfOk result (λ reply. (self.new, reply) ≡ replayed self.old (set_exclusive id exclusive)) }
        ensures err { OnErr result (self.new ≡ self.old) }
    {
        let known = self.body.marks();
        match marks::mark_with(known, id) {
            None => Ok(self.refused(CallRefusal::MarkUnknown)),
            Some(_) => {
                let all = marks::with_exclusive(self.body.alloc(), known, id, exclusive)?;
                Ok(self.put_marks(all))
            }
        }
    }

    /// Shows where a mark is.
    pub(crate) fn mark_range(&mut self, id: u32) -> Reply
        requires { self.old.count < 2 ^ 57 }
        ensures { (self.new, result) ≡ replayed self.old (mark_range id) }
    {
        match marks::mark_with(self.body.marks(), id) {
            None => self.refused(CallRefusal::MarkUnknown),
            Some(mark) => Reply::Range {
                at: self.body.number(),
                exclusive: mark.exclusive,
                range: Span {
                    start: mark.start,
                    end: mark.end,
                },
            },
        }
    }

    /// Shows the ids of the marks that stand to the range as `how` says.
    pub(crate) fn find_marks(&mut self, how: How, range: Range) -> Result<Reply, NoMemory>
        requires { self.old.count < 2 ^ 57 }
        ensures ok { IfOk result (λ reply. (self.new, reply) ≡ replayed self.old (find_marks how range)) }
        ensures err { OnErr result (self.new ≡ self.old) }
    {
        let ids = marks::ids_where(self.body.alloc(), self.body.marks(), how, range)?;
        Ok(Reply::Marks {
            at: self.body.number(),
            ids: Sequence::new(ids),
        })
    }

    /// Shows how two marks stand to each other.
    pub(crate) fn compare(&mut self, a: u32, b: u32) -> Reply
        requires { self.old.count < 2 ^ 57 }
        ensures { (self.new, result) ≡ replayed self.old (compare_marks a b) }
    {
        let first = match marks::mark_with(self.body.marks(), a) {
            None => return self.refused(CallRefusal::MarkUnknown),
            Some(mark) => mark,
        };
        match marks::mark_with(self.body.marks(), b) {
            None => self.refused(CallRefusal::MarkUnknown),
            Some(second) => Reply::Order {
                at: self.body.number(),
                order: marks::mark_order(first, second),
            },
        }
    }

    /// Attaches a watcher.
    pub(crate) fn watch(&mut self, id: u32) -> Result<Reply, NoMemory>
        requires { self.old.count < 2 ^ 57 }
        ensures ok { IfOk result (λ reply. (self.new, reply) ≡ replayed self.old (watch id)) }
        ensures err { OnErr result (self.new ≡ self.old) }
    {
        let known = self.body.watchers();
        match known.heard(id) {
            Some(_) => return Ok(self.refused(CallRefusal::WatchTaken)),
            None => {}
        }
        if known.len() >= MAX_WATCHERS {
            return Ok(self.refused(CallRefusal::WatchFull));
        }
        let all = known.with(self.body.alloc(), id)?;
        let at = self.put_watchers(all);
        Ok(Reply::Numbered { at })
    }

    /// Detaches a watcher.
    pub(crate) fn unwatch(&mut self, id: u32) -> Result<Reply, NoMemory>
        requires { self.old.count < 2 ^ 57 }
        ensures ok { IfOk result (λ reply. (self.new, reply) ≡ replayed self.old (unwatch id)) }
        ensures err { OnErr result (self.new ≡ self.old) }
    {
        let heard = match self.body.watchers().heard(id) {
            None => return Ok(self.refused(CallRefusal::WatchUnknown)),
            Some(heard) => heard,
        };
        let others = self.body.watchers().without(self.body.alloc(), id)?;
        let at = self.put_watchers(others);
        Ok(Reply::Heard { at, heard })
    }

    // Numbers a call that puts other marks in place of all.
    fn put_marks(&mut self, marks: Vec<Mark>) -> Reply
        requires sound { IsSound self.old.text marks.items }
        requires count { self.old.count < 2 ^ 57 }
        ensures state { self.new ≡ (with_marks self.old marks.items).0 }
        ensures reply { result ≡ reply_of 2 (self.old.count + 1) Done }
    {
        self.body.set_marks(marks);
        Reply::Numbered {
            at: self.body.number(),
        }
    }

    // Numbers a call that puts other watchers in place of all.
    fn put_watchers(&mut self, watchers: Watchers) -> u64
        requires { self.old.count < 2 ^ 57 }
        ensures state { self.new ≡ (with_watchers self.old watchers Done).0 }
        ensures number { result ≡ self.old.count + 1 }
    {
        self.body.set_watchers(watchers);
        self.body.number()
    }
}
