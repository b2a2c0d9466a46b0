//! Reads of a snapshot that want nothing but its text, and a matcher where they are of a pattern.
ghost use Rattle.points.specs.Text.{IsWellFormed};
ghost use Rattle.std.specs.Prelude.{◌≡◌, ◌<◌, ◌≤◌, ◌∷◌, [], count_by, length, map, true, false, IfOk};
ghost use Rattle.std.specs.List.{list_all};
ghost use Rattle.machine.specs.Lawful.{is_pattern};
ghost use Rattle.search.specs.declared.found.Found.{Found};
ghost use Rattle.search.specs.Answer.{FindsIn, answer_of, literal_answer};
ghost use Rattle.sessions.specs.Rules.{is_own_read};
ghost use Rattle.sessions.specs.Reading.{answer_in, IsRight, AreRight};

use answers::{find_text, read_text};
use layers::Reader;
use machine::{Read, ReadAnswer, Text};
use outer::Matcher;
use points::NoMemory;
use search::find_pattern;
use std::alloc::Global;

/// Answers these reads of a reader's text in turn. Each read of a pattern takes the next of the matchers.
pub(crate) fn answer_reads<M: Matcher>(
    alloc: Global,
    reader: &Reader,
    matchers: &mut Vec<M>,
    reads: &[Read],
) -> Result<Vec<ReadAnswer>, NoMemory>
    requires whole { ∥ IsWellFormed reader.now.text ∥₁ }
    requires own { list_all is_own_read reads.now ≡ true }
    requires enough { count_by is_pattern reads.now ≤ length matchers.old.items }
    ensures { IfOk result (λ answers. AreRight reader.now.text (map M.tells matchers.old.items) (map M.tells matchers.new.items) reads.now answers.items) }
{
    let mut answers = Vec::new(alloc);
    for read in reads {
        answers.push(answer_read(alloc, reader, matchers, read)?)?;
    }
    Ok(answers)
}

// Answers one read.
fn answer_read<M: Matcher>(
    alloc: Global,
    reader: &Reader,
    matchers: &mut Vec<M>,
    read: &Read,
) -> Result<ReadAnswer, NoMemory>
    requires whole { ∥ IsWellFormed reader.now.text ∥₁ }
    requires own { is_own_read read.now ≡ true }
    requires enough { count_by is_pattern (read.now ∷ []) ≤ length matchers.old.items }
    ensures { IfOk result (λ answer. IsRight reader.now.text (map M.tells matchers.old.items) (map M.tells matchers.new.items) read.now answer) }
{
    match read {
        Read::Pattern { limit, .. } => match_with(alloc, reader, matchers.remove(0), *limit),
        _ => answer_alone(alloc, reader, read),
    }
}

// Finds what a matcher hits.
fn match_with<M: Matcher>(
    alloc: Global,
    reader: &Reader,
    mut matcher: M,
    limit: u32,
) -> Result<ReadAnswer, NoMemory>
    ensures { IfOk result (λ answer. (found : Found) × FindsIn (M.tells matcher) reader.now.text limit found × (answer ≡ answer_of found)) }
{
    let found = find_pattern(alloc, reader, &mut matcher, limit as usize)?;
    found.to_answer(alloc)
}

// Answers a read that takes no matcher.
fn answer_alone(alloc: Global, reader: &Reader, read: &Read) -> Result<ReadAnswer, NoMemory>
    requires whole { ∥ IsWellFormed reader.now.text ∥₁ }
    requires own { is_own_read read.now ≡ true }
    requires alone { is_pattern read.now ≡ false }
    ensures { IfOk result (λ answer. answer ≡ answer_in reader.now.text read.now) }
{
    match read {
        Read::Size => Ok(ReadAnswer::Size {
            extent: reader.extent(),
            units: reader.len() as u64,
        }),
        Read::Text { range, limit } => {
            let (units, text) = read_text(alloc, reader, *range, *limit)?;
            let text = String::from_utf16_lossy(alloc, text.as_slice())?;
            Ok(ReadAnswer::Text {
                text: Text::new(text),
                units,
            })
        }
        Read::Find { needle, limit } => find(alloc, reader, needle.as_str(), *limit),
        _ => unreachable!(),
    }
}

// Finds a text with some bytes.
fn find(alloc: Global, reader: &Reader, needle: &str, limit: u32) -> Result<ReadAnswer, NoMemory>
    requires whole { ∥ IsWellFormed reader.now.text ∥₁ }
    requires needle { 0 < length needle.now }
    ensures { IfOk result (λ answer. answer ≡ literal_answer reader.now.text limit needle.now) }
{
    let found = find_text(alloc, reader, needle, limit)?;
    found.to_answer(alloc)
}
