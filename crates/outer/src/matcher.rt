//! Matchers: what finds the hits of one pattern in a text. A matcher may tell its hits (`tells`); contracts then say that
//! it found just these.
ghost use Rattle.std.specs.Prelude.{◌≡◌, Option, IfOk};
ghost use Rattle.outer.specs.Matcher.{ToldHits, Finds};

use crate::spans::Spans;
use points::NoMemory;
use std::alloc::Global;

/// What finds the hits of one pattern: a regular expression, a literal.
pub trait Matcher: Send + Drop {
    /// The hits in each text, where the matcher tells them. No call changes them.
    ghost tells: { Self → Option ToldHits };

    /// Finds all hits in a text, from its front on. It answers their number, and puts the first `limit` of them at the end
    /// of `into`. Hits stand between characters and don't overlap. After want of memory what `into` has is open.
    fn find_all(
        &mut self,
        alloc: Global,
        text: &str,
        limit: usize,
        into: &mut Spans,
    ) -> Result<u64, NoMemory>
        ensures same { tells self.new ≡ tells self.old }
        ensures finds { IfOk result (λ count. Finds (tells self.old) text.now limit into.old count into.new) };
}
