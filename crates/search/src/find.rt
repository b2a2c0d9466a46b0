//! Searches of a reader's text.
ghost use Rattle.std.specs.Prelude.{◌≡◌, ◌↔◌, ◌<◌, [], length, IfOk, IsErrOf};
ghost use Rattle.points.specs.Text.{mended, text_of, utf16_of};
ghost use Rattle.points.specs.declared.limits.TheConstants.{MAX_UNITS, MAX_COORD};
ghost use Rattle.machine.specs.Answers.{span_of_bytes};
ghost use Rattle.outer.specs.Matcher.{AreHits};
ghost use Rattle.search.specs.Answer.{FindsIn, answer_of, literal_answer, span_of};

use crate::copy::copied;
use crate::found::{Found, Ranges};
use crate::place::ranges_of;
use crate::refusal::FindRefusal;
use layers::Reader;
use outer::{Matcher, Spans, find_literals};
use points::{MAX_UNITS, NoMemory};
use std::alloc::Global;

/// Finds the hits of a literal in a reader's text, from the front on and with no unit in two of them: their number, and the
/// first `limit` of them. A surrogate that lacks its partner counts as U+FFFD.
///
/// `EmptyNeedle` comes exactly where the literal is empty.
pub fn find_literal(
    alloc: Global,
    reader: &Reader,
    needle: &str,
    limit: usize,
) -> Result<Found, FindRefusal>
    ensures empty { IsErrOf result FindRefusal.EmptyNeedle ↔ (needle.now ≡ []) }
    ensures found { IfOk result (λ found. answer_of found ≡ literal_answer (mended reader.now.text) limit needle.now) }
{
    if needle.is_empty() {
        return Err(FindRefusal::EmptyNeedle);
    }
    Ok(literals_in(alloc, reader, needle, limit)?)
}

// The same for a needle with some bytes.
fn literals_in(
    alloc: Global,
    reader: &Reader,
    needle: &str,
    limit: usize,
) -> Result<Found, NoMemory>
    requires { 0 < length needle.now }
    ensures { IfOk result (λ found. answer_of found ≡ literal_answer (mended reader.now.text) limit needle.now) }
{
    prove!(reader.len() <= MAX_UNITS);
    let copy = copied(alloc, reader)?;
    let text = copy.as_str();
    let mut hits = Spans::new(alloc);
    let count = find_literals(text, needle, limit, &mut hits)?;
    let first = ranges_of(alloc, text, hits.as_slice())?;
    Ok(Found {
        count,
        first: Ranges::from_vec(first),
    })
}

/// Finds the matcher's hits in a reader's text: their number, and the first `limit` of them. The matcher is given the text
/// with U+FFFD in place of each surrogate that lacks its partner.
pub fn find_pattern<M: Matcher>(
    alloc: Global,
    reader: &Reader,
    matcher: &mut M,
    limit: usize,
) -> Result<Found, NoMemory>
    ensures same { M.tells matcher.new ≡ M.tells matcher.old }
    ensures finds { IfOk result (λ found. FindsIn (M.tells matcher.old) reader.now.text limit found) }
{
    prove!(reader.len() <= MAX_UNITS);
    let copy = copied(alloc, reader)?;
    let text = copy.as_str();
    let mut hits = Spans::new(alloc);
    let count = matcher.find_all(alloc, text, limit, &mut hits)?;
    let first = ranges_of(alloc, text, hits.as_slice())?;
    Ok(Found {
        count,
        first: Ranges::from_vec(first),
    })
}
