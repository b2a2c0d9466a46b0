//! Reads of a snapshot: what the text alone tells, searches, and saves.
ghost use Rattle.std.specs.Prelude.{◌≡◌, ◌<◌, ◌≤◌, [], ◌∷◌, count_by, length, map, true, IfOk, OnOk, IsErrOf};
ghost use Rattle.std.specs.List.{list_all};
ghost use Rattle.points.specs.Text.{IsWellFormed};
ghost use Rattle.drafts.specs.Drafts.{has_faulty};
ghost use Rattle.machine.specs.Lawful.{is_pattern};
ghost use Rattle.search.specs.Answer.{literal_answer};
ghost use Rattle.buffer_cli.specs.Answered.{is_answered_read};
ghost use Rattle.buffer_cli.specs.Hits.{AreAnswers, IsPatternAnswer};
ghost use Rattle.buffer_cli.specs.Saved.{TakeInTurn, files_among};

use crate::saves::save_next;
use crate::stop::Stop;
use buffer::Snapshot;
use machine::{Read, ReadAnswer};
use outer::{Matcher, Sink};
use points::NoMemory;
use search::{FindRefusal, find_literal, find_pattern};
use std::alloc::Global;

/// Answers these reads of a snapshot in turn. Each read of a pattern takes the next of the matchers, and each save puts the text to
/// the first of the sinks, which then stands last.
pub(crate) fn answer_reads<M: Matcher, K: Sink + Drop>(
    alloc: Global,
    snapshot: &Snapshot,
    matchers: &mut Vec<M>,
    sinks: &mut Vec<K>,
    reads: &[Read],
) -> Result<Vec<ReadAnswer>, Stop>
    requires whole { IsWellFormed snapshot.now.text }
    requires answered { list_all (is_answered_read (length sinks.old.items)) reads.now ≡ true }
    requires enough { count_by is_pattern reads.now ≤ length matchers.old.items }
    ensures answers { IfOk result (λ answers. AreAnswers snapshot.now.text (map M.tells matchers.old.items) (map M.tells matchers.new.items) reads.now answers.items) }
    ensures saved { OnOk result (TakeInTurn (files_among snapshot.now.text reads.now) (map K.taken sinks.old.items) (map K.taken sinks.new.items)) }
    ensures many { length sinks.new.items ≡ length sinks.old.items }
    ensures failed { IsErrOf result Stop.SaveFault → has_faulty K.faults sinks.new.items ≡ true }
{
    let mut answers = Vec::new(alloc);
    for read in reads {
        answers.push(answer_read(alloc, snapshot, matchers, sinks, read)?)?;
    }
    Ok(answers)
}

// Answers one read.
fn answer_read<M: Matcher, K: Sink + Drop>(
    alloc: Global,
    snapshot: &Snapshot,
    matchers: &mut Vec<M>,
    sinks: &mut Vec<K>,
    read: &Read,
) -> Result<ReadAnswer, Stop>
    requires whole { IsWellFormed snapshot.now.text }
    requires answered { is_answered_read (length sinks.old.items) read.now ≡ true }
    requires enough { count_by is_pattern (read.now ∷ []) ≤ length matchers.old.items }
    ensures answers { IfOk result (λ answer. AreAnswers snapshot.now.text (map M.tells matchers.old.items) (map M.tells matchers.new.items) (read.now ∷ []) (answer ∷ [])) }
    ensures saved { OnOk result (TakeInTurn (files_among snapshot.now.text (read.now ∷ [])) (map K.taken sinks.old.items) (map K.taken sinks.new.items)) }
    ensures many { length sinks.new.items ≡ length sinks.old.items }
    ensures failed { IsErrOf result Stop.SaveFault → has_faulty K.faults sinks.new.items ≡ true }
{
    match read {
        Read::Save { encoding, .. } => save_next(snapshot, *encoding, sinks),
        _ => Ok(answer_unsaved(alloc, snapshot, matchers, read)?),
    }
}

// Answers one read that isn't a save.
fn answer_unsaved<M: Matcher>(
    alloc: Global,
    snapshot: &Snapshot,
    matchers: &mut Vec<M>,
    read: &Read,
) -> Result<ReadAnswer, NoMemory>
    requires whole { IsWellFormed snapshot.now.text }
    requires answered { is_answered_read 0 read.now ≡ true }
    requires enough { count_by is_pattern (read.now ∷ []) ≤ length matchers.old.items }
    ensures { IfOk result (λ answer. AreAnswers snapshot.now.text (map M.tells matchers.old.items) (map M.tells matchers.new.items) (read.now ∷ []) (answer ∷ [])) }
{
    match read {
        Read::Find { needle, limit } => find(alloc, snapshot, needle.as_str(), *limit),
        Read::Pattern { limit, .. } => match_with(alloc, snapshot, matchers.remove(0), *limit),
        _ => snapshot.read(alloc, read),
    }
}

// Finds a text with some bytes.
fn find(
    alloc: Global,
    snapshot: &Snapshot,
    needle: &str,
    limit: u32,
) -> Result<ReadAnswer, NoMemory>
    requires whole { IsWellFormed snapshot.now.text }
    requires needle { 0 < length needle.now }
    ensures { IfOk result (λ answer. answer ≡ literal_answer snapshot.now.text limit needle.now) }
{
    match find_literal(alloc, snapshot.reader(), needle, limit as usize) {
        Ok(found) => found.to_answer(alloc),
        Err(FindRefusal::EmptyNeedle) => unreachable!(),
        Err(FindRefusal::NoMemory) => Err(NoMemory),
    }
}

// Finds what a matcher hits.
fn match_with<M: Matcher>(
    alloc: Global,
    snapshot: &Snapshot,
    mut matcher: M,
    limit: u32,
) -> Result<ReadAnswer, NoMemory>
    ensures { IfOk result (IsPatternAnswer snapshot.now.text limit (M.tells matcher)) }
{
    let found = find_pattern(alloc, snapshot.reader(), &mut matcher, limit as usize)?;
    found.to_answer(alloc)
}
