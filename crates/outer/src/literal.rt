//! Literal hits: where a needle stands in a text, found in the bytes of both.
ghost use Rattle.std.specs.Prelude.{◌≡◌, ◌<◌, ◌++◌, length, take, Some, IfOk, string_bytes};
ghost use Rattle.points.specs.Literal.{hits};
ghost use Rattle.outer.specs.Literal.{literal_hits, spans_of};
ghost use Rattle.outer.specs.Matcher.{Finds};

use crate::matcher::Matcher;
use crate::spans::Spans;
use memchr::memmem;
use points::NoMemory;
use std::alloc::Global;
use std::marker::Model;

/// Finds the hits of a needle in a text, from the front on and with no byte in two of them. It answers their number, and
/// puts the first `limit` of them at the end of `into`. An empty needle has no hits.
pub fn find_literals(
    text: &str,
    needle: &str,
    limit: usize,
    into: &mut Spans,
) -> Result<u64, NoMemory>
    ensures count { IfOk result (λ count. count ≡ length (literal_hits needle.now text.now)) }
    ensures first { IfOk result (λ _. into.new ≡ into.old ++ take limit (literal_hits needle.now text.now)) }
    ensures finds { IfOk result (λ count. Finds (Some (literal_hits needle.now)) text.now limit into.old count into.new) }
{
    if needle.is_empty() {
        return Ok(0);
    }
    put_matches(text.as_bytes(), needle.as_bytes(), limit, into)
}

// The same for bytes, and a needle with some.
fn put_matches(text: &[u8], needle: &[u8], limit: usize, into: &mut Spans) -> Result<u64, NoMemory>
    requires { 0 < length needle.now }
    ensures count { IfOk result (λ count. count ≡ length (hits text.now needle.now)) }
    ensures first { IfOk result (λ _. into.new ≡ into.old ++ take limit (spans_of (length needle.now) (hits text.now needle.now))) }
{
    let mut count = 0;
    for start in memmem::find_iter(text, needle) {
        if count < limit as u64 {
            into.push(start, start + needle.len())?;
        }
        count += 1;
    }
    Ok(count)
}

/// A matcher of the literal hits of one needle. It tells its hits.
#[derive(Debug, Drop)]
pub struct LiteralMatcher {
    needle: String,
}

impl Model for LiteralMatcher {
    ghost use Rattle.std.specs.Prelude.{ℕ, List, string_bytes};

    ghost Value = { List ℕ };

    ghost view = { λ m. string_bytes m.needle };
}

impl LiteralMatcher {
    /// A matcher of this needle.
    pub fn new(needle: String) -> Self
        ensures { result ≡ string_bytes needle }
    {
        LiteralMatcher { needle }
    }
}

impl Matcher for LiteralMatcher {
    ghost tells = { λ m. Some (literal_hits m) };

    fn find_all(
        &mut self,
        _alloc: Global,
        text: &str,
        limit: usize,
        into: &mut Spans,
    ) -> Result<u64, NoMemory>
        ensures same { self.new ≡ self.old }
        ensures finds { IfOk result (λ count. Finds (Some (literal_hits self.old)) text.now limit into.old count into.new) }
    {
        find_literals(text, self.needle.as_str(), limit, into)
    }
}
