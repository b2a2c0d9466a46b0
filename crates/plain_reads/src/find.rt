//! A literal, looked for at each offset of a text.
ghost use Rattle.std.specs.Prelude.{◌≡◌, ◌+◌, ◌<◌, ◌++◌, length, map, IfOk};
ghost use Rattle.points.specs.Text.{utf16_of};
ghost use Rattle.points.specs.Place.{point_at};
ghost use Rattle.points.specs.Literal.{hits};
ghost use Rattle.machine.specs.Answers.{found, span_at};
ghost use Rattle.plain_reads.specs.Searching.{left_at};

use line_text::LineText;
use machine::{ReadAnswer, Sequence, Span};
use points::{MAX_UNITS, NoMemory, Point, Units};
use std::alloc::Global;

/// The number of the needle's hits in a text, and the first `limit` of them.
pub(crate) fn find(
    alloc: Global,
    text: &LineText,
    needle: &str,
    limit: u32,
) -> Result<ReadAnswer, NoMemory>
    ensures { IfOk result (λ a. a ≡ found limit (map (span_at text.now (length (utf16_of needle.now))) (hits text.now (utf16_of needle.now)))) }
{
    let needle = Units::from_str(alloc, needle)?;
    let units = text.slice(0, text.len());
    let mut starts = hits(alloc, units, needle.as_slice())?;
    let count = starts.as_slice().len() as u64;
    starts.truncate(limit as usize);
    let spans = spans_of(alloc, text, starts.as_slice(), needle.len())?;
    Ok(ReadAnswer::Found {
        count,
        hits: Sequence::new(spans),
    })
}

// The offsets of the needle's hits.
fn hits(alloc: Global, units: &[u16], needle: &[u16]) -> Result<Vec<usize>, NoMemory>
    ensures { IfOk result (λ starts. starts.items ≡ hits units.now needle.now) }
{
    let mut starts = Vec::new(alloc);
    let mut skip = 0;
    for at in 0..units.len() {
        skip = look(units, needle, at, skip, &mut starts)?;
    }
    Ok(starts)
}

// Looks for the needle at one offset, unless units are to be skipped. It answers how many are to be skipped behind it.
fn look(
    units: &[u16],
    needle: &[u16],
    at: usize,
    skip: usize,
    starts: &mut Vec<usize>,
) -> Result<usize, NoMemory>
    requires { at < length units.now }
    ensures { IfOk result (λ next. starts.new.items ++ left_at units.now needle.now (at + 1) next
        ≡ starts.old.items ++ left_at units.now needle.now at skip) }
{
    if skip > 0 {
        return Ok(skip - 1);
    }
    if !units[at..].starts_with(needle) {
        return Ok(0);
    }
    starts.push(at)?;
    Ok(needle.len().saturating_sub(1))
}

// The stretches of `units` units from these offsets on.
fn spans_of(
    alloc: Global,
    text: &LineText,
    starts: &[usize],
    units: usize,
) -> Result<Vec<Span>, NoMemory>
    ensures { IfOk result (λ spans. spans.items ≡ map (span_at text.now units) starts.now) }
{
    let mut spans = Vec::with_capacity(alloc, starts.len())?;
    for start in starts {
        spans.push(span_at(text, units, *start))?;
    }
    Ok(spans)
}

// The stretch of `units` units from an offset on.
fn span_at(text: &LineText, units: usize, start: usize) -> Span
    ensures { result ≡ span_at text.now units start }
{
    prove!(text.len() <= MAX_UNITS);
    Span {
        start: point_at(text, start),
        end: point_at(text, start.saturating_add(units)),
    }
}

// The point at an offset, or the end of the text where the offset is beyond it.
fn point_at(text: &LineText, offset: usize) -> Point
    ensures { result ≡ point_at text.now offset }
{
    let last = text.len();
    text.point_at(if offset < last { offset } else { last })
}
