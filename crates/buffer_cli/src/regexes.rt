//! The trusted edge: regular expressions as patterns. The maker and its matchers tell no hits, since no clause here says what a
//! pattern means.
ghost use Rattle.std.specs.Prelude.{◌≡◌, ℕ, ◌+◌, ◌≤◌, List, length, true, None, IfOk};
ghost use Rattle.buffer_cli.specs.Put.{IsNext, ArePut};

use outer::{MakeRefusal, Matcher, PatternMaker, Spans};
use points::NoMemory;
use regex::{Error, Regex};
use std::alloc::Global;

/// A maker of matchers of regular expressions, in the syntax of the crate `regex`.
#[derive(Drop)]
pub(crate) struct RegexMaker {
    refusals: u64,
}

impl RegexMaker {
    pub(crate) fn new() -> Self {
        RegexMaker { refusals: 0 }
    }
}

impl PatternMaker for RegexMaker {
    type M = RegexMatcher;

    ghost hits = { λ _ _. None };

    ghost refusals = { λ m. m.refusals };

    ghost refused = { λ _. None };

    fn make(&mut self, alloc: Global, pattern: &str) -> Result<RegexMatcher, MakeRefusal> {
        match Regex::new(alloc, pattern) {
            Ok(_) => Ok(RegexMatcher {
                pattern: String::from_str(alloc, pattern)?,
            }),
            Err(Error::OutOfMemory) => Err(MakeRefusal::NoMemory),
            Err(_) => {
                self.refusals = self.refusals.saturating_add(1);
                Err(MakeRefusal::Refused)
            }
        }
    }
}

/// A matcher of one regular expression. It keeps the text and not what is compiled of it, which may take 10 MB: a script may have
/// thousands of patterns, and its matchers stand from its start on.
#[derive(Drop)]
pub(crate) struct RegexMatcher {
    pattern: String,
}

impl Matcher for RegexMatcher {
    ghost tells = { λ _. None };

    fn find_all(
        &mut self,
        alloc: Global,
        text: &str,
        limit: usize,
        into: &mut Spans,
    ) -> Result<u64, NoMemory> {
        // The text was compiled before, so nothing but memory can be wanting.
        let Ok(regex) = Regex::new(alloc, self.pattern.as_str()) else {
            return Err(NoMemory);
        };
        let mut matcher = regex.matcher(alloc)?;
        let mut seen = Seen { count: 0, end: 0 };
        for found in matcher.find_iter(text) {
            if is_next(text, &seen, found.start(), found.end()) {
                put(text, &mut seen, (found.start(), found.end()), limit, into)?;
            }
        }
        Ok(seen.count)
    }
}

/// How many hits there were, and where the last of them ended.
#[derive(Drop)]
pub(crate) struct Seen {
    count: u64,
    end: usize,
}

// Whether a hit stands behind the last one and between characters. The crate gives no others, so none is passed over.
fn is_next(text: &str, seen: &Seen, start: usize, end: usize) -> bool
    ensures { result ≡ true → IsNext text.now seen.now start end }
{
    seen.end <= start
        && start <= end
        && (seen.count == 0 || seen.end < end)
        && text.is_char_boundary(start)
        && text.is_char_boundary(end)
}

// Counts a hit, and puts it at the end of `into` where fewer than `limit` are there.
fn put(
    text: &str,
    seen: &mut Seen,
    hit: (usize, usize),
    limit: usize,
    into: &mut Spans,
) -> Result<(), NoMemory>
    requires next { IsNext text.now seen.old hit.0 hit.1 }
    requires few { seen.old.count ≤ seen.old.end + 1 }
    requires within { seen.old.end ≤ length text.now }
    ensures { (before : List (ℕ × ℕ)) → ArePut text.now limit before into.old seen.old → IfOk result (λ _. ArePut text.now limit before into.new seen.new) }
{
    let shown = seen.count < limit as u64;
    seen.count += 1;
    seen.end = hit.1;
    if shown {
        into.push(hit.0, hit.1)
    } else {
        Ok(())
    }
}
