//! The hits of a matcher in a text.
ghost use Rattle.std.specs.Prelude.{◌≡◌, IfOk, IfSome};
ghost use Rattle.machine.specs.Answers.{pattern_answer};

use crate::place::spans_of;
use line_text::LineText;
use machine::{ReadAnswer, Sequence};
use outer::{Matcher, Spans};
use points::NoMemory;
use std::alloc::Global;

/// The number of the matcher's hits in a text, and the first `limit` of them. Where the matcher tells its hits, they are these.
pub fn answer_pattern<M: Matcher>(
    alloc: Global,
    text: &LineText,
    matcher: &mut M,
    limit: u32,
) -> Result<ReadAnswer, NoMemory>
    ensures same { M.tells matcher.new ≡ M.tells matcher.old }
    ensures told { IfOk result (λ a. IfSome (M.tells matcher.old) (λ tell. a ≡ pattern_answer text.now limit tell)) }
{
    prove!(text.len() <= points::MAX_UNITS);
    let copy = text.to_text()?;
    let bytes = copy.as_str();
    let mut hits = Spans::new(alloc);
    let count = matcher.find_all(alloc, bytes, limit as usize, &mut hits)?;
    let spans = spans_of(alloc, bytes, hits.as_slice())?;
    Ok(ReadAnswer::Found {
        count,
        hits: Sequence::new(spans),
    })
}
