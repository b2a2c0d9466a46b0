//! What a search found.
ghost use Rattle.std.specs.Prelude.{◌≡◌, map, IfOk};
ghost use Rattle.search.specs.Answer.{answer_of, span_of};

use machine::{ReadAnswer, Sequence, Span};
use points::{NoMemory, Range};
use std::alloc::Global;
use std::marker::Model;

/// A list of ranges of a text.
#[derive(Debug, Drop)]
pub struct Ranges {
    items: Vec<Range>,
}

impl Model for Ranges {
    ghost use Rattle.std.specs.Prelude.{List};
    ghost use Rattle.points.specs.declared.range.Range.{Range as ARange};

    ghost Value = { List ARange };

    ghost view = { λ r. r.items.items };
}

impl Ranges {
    /// The ranges of a vector, over the same memory.
    pub fn from_vec(items: Vec<Range>) -> Self
        ensures { result ≡ items.items }
    {
        Ranges { items }
    }

    /// The ranges, lent.
    pub fn as_slice(&self) -> &[Range]
        ensures { result.now ≡ self.now }
    {
        self.items.as_slice()
    }
}

/// What a search found: the number of all hits, and the first of them, as many as were asked for. The ends of a hit are the
/// plain points of its offsets: they aren't clipped.
#[derive(Debug, Drop)]
pub struct Found {
    pub count: u64,
    pub first: Ranges,
}

impl Found {
    /// The same as a transcript shows it.
    pub fn to_answer(&self, alloc: Global) -> Result<ReadAnswer, NoMemory>
        ensures { IfOk result (λ answer. answer ≡ answer_of self.now) }
    {
        Ok(ReadAnswer::Found {
            count: self.count,
            hits: Sequence::new(spans_of(alloc, self.first.as_slice())?),
        })
    }
}

// The ranges as a transcript shows them.
fn spans_of(alloc: Global, ranges: &[Range]) -> Result<Vec<Span>, NoMemory>
    ensures { IfOk result (λ spans. spans.items ≡ map span_of ranges.now) }
{
    let mut spans = Vec::with_capacity(alloc, ranges.len())?;
    for range in ranges {
        spans.push(Span {
            start: range.start,
            end: range.end,
        })?;
    }
    Ok(spans)
}
