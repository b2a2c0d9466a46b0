//! Answers to reads, on the text that a reader shows.
ghost use Rattle.std.specs.Prelude.{◌≡◌, ◌≤◌, ◌<◌, ◌+◌, ◌∷◌, [], ◌-◌, length, map, string_bytes, vec_len, vec_capacity, IfOk};
ghost use Rattle.points.specs.Place.{span};
ghost use Rattle.points.specs.Text.{mended};
ghost use Rattle.search.specs.Answer.{answer_of, literal_answer};
ghost use Rattle.machine.specs.Machine.{shown, between};
ghost use Rattle.answers.specs.Asks.{ask, CanAsk, CanAskAll, IsAnswer, AreAnswers, all_refused, find as find_ask, pattern as pattern_ask, save as save_ask};

use crate::answer::Answer;
use crate::read::Read;
use codecs::save;
use layers::Reader;
use line_text::splits_pair;
use machine::Encoding;
use outer::{Matcher, Sink};
use points::{NoMemory, Range, Units};
use search::{FindRefusal, Found, find_literal, find_pattern};
use std::alloc::Global;

/// Answers all reads in turn, into a list with room for the answers.
pub fn answer_all<M: Matcher, K: Sink + Drop>(
    alloc: Global,
    reader: &Reader,
    reads: Vec<Read<M, K>>,
    room: Vec<Answer<K>>,
) -> Vec<Answer<K>>
    requires asked { CanAskAll reader.now.text (map (ask M.tells K.taken K.faults) reads.items) }
    requires empty { room.items ≡ [] }
    requires room { vec_len reads ≤ vec_capacity room }
    ensures { AreAnswers K.taken K.faults reader.now.text (map (ask M.tells K.taken K.faults) reads.items) result.items }
{
    let mut answers = room;
    for read in reads {
        answers.push_reserved(answer(alloc, reader, read));
    }
    answers
}

/// Answers that there is no memory, for each read.
pub fn refuse_all<M: Matcher, K: Sink + Drop>(
    reads: Vec<Read<M, K>>,
    room: Vec<Answer<K>>,
) -> Vec<Answer<K>>
    requires empty { room.items ≡ [] }
    requires room { vec_len reads ≤ vec_capacity room }
    ensures { result.items ≡ all_refused (map (ask M.tells K.taken K.faults) reads.items) }
{
    let mut answers = room;
    for read in reads {
        drop(read);
        answers.push_reserved(Answer::NoMemory);
    }
    answers
}

// Answers one read.
fn answer<M: Matcher, K: Sink + Drop>(alloc: Global, reader: &Reader, read: Read<M, K>) -> Answer<K>
    requires { CanAsk reader.now.text (ask M.tells K.taken K.faults read) }
    ensures { IsAnswer K.taken K.faults reader.now.text (ask M.tells K.taken K.faults read) result }
{
    match read {
        Read::Size => Answer::Size {
            units: reader.len() as u64,
            extent: reader.extent(),
        },
        Read::Text { range, limit } => match read_text(alloc, reader, range, limit) {
            Ok((units, text)) => Answer::Text { units, text },
            Err(NoMemory) => Answer::NoMemory,
        },
        Read::Find { needle, limit } => find(alloc, reader, needle, limit),
        Read::Pattern { matcher, limit } => match_with(alloc, reader, matcher, limit),
        Read::Save { encoding, sink } => save_to(reader, encoding, sink),
    }
}

/// The number of UTF-16 units of the clipped range, and the first of them: at most `limit`, and one fewer where that would
/// part a surrogate pair.
pub fn read_text(
    alloc: Global,
    reader: &Reader,
    range: Range,
    limit: u32,
) -> Result<(u64, Units), NoMemory>
    ensures units { IfOk result (λ r. let ends = span reader.now.text range.start range.end in r.0 ≡ ends.1 - ends.0) }
    ensures text { IfOk result (λ r. let ends = span reader.now.text range.start range.end in r.1 ≡ shown limit (between reader.now.text ends.0 ends.1)) }
{
    let mut units = Units::new(alloc);
    reader.units(range, &mut units)?;
    let mut text = Units::new(alloc);
    text.append(first_units(units.as_slice(), limit as usize))?;
    Ok((units.len() as u64, text))
}

// The first units, at most `limit`, and one fewer where that would part a surrogate pair.
fn first_units(units: &[u16], limit: usize) -> &[u16]
    ensures { result.now ≡ shown limit units.now }
{
    let end = limit.min(units.len());
    if splits_pair(units, end) {
        &units[..end - 1]
    } else {
        &units[..end]
    }
}

// Finds a text with some bytes.
fn find<K: Sink>(alloc: Global, reader: &Reader, needle: String, limit: u32) -> Answer<K>
    requires { 0 < length (string_bytes needle) }
    ensures { IsAnswer K.taken K.faults reader.now.text (find_ask (string_bytes needle) limit) result }
{
    match find_text(alloc, reader, needle.as_str(), limit) {
        Ok(found) => Answer::Found(found),
        Err(NoMemory) => Answer::NoMemory,
    }
}

/// The number of hits of a text with some bytes, and the first `limit` of them. A surrogate that lacks its partner counts as
/// U+FFFD.
pub fn find_text(
    alloc: Global,
    reader: &Reader,
    needle: &str,
    limit: u32,
) -> Result<Found, NoMemory>
    requires { 0 < length needle.now }
    ensures { IfOk result (λ found. answer_of found ≡ literal_answer (mended reader.now.text) limit needle.now) }
{
    match find_literal(alloc, reader, needle, limit as usize) {
        Ok(found) => Ok(found),
        Err(FindRefusal::EmptyNeedle) => unreachable!(),
        Err(FindRefusal::NoMemory) => Err(NoMemory),
    }
}

// Finds what a matcher hits.
fn match_with<M: Matcher, K: Sink>(
    alloc: Global,
    reader: &Reader,
    mut matcher: M,
    limit: u32,
) -> Answer<K>
    ensures { IsAnswer K.taken K.faults reader.now.text (pattern_ask (M.tells matcher) limit) result }
{
    match find_pattern(alloc, reader, &mut matcher, limit as usize) {
        Ok(found) => Answer::Found(found),
        Err(NoMemory) => Answer::NoMemory,
    }
}

// Writes the text to a sink.
fn save_to<K: Sink>(reader: &Reader, encoding: Encoding, mut sink: K) -> Answer<K>
    requires { CanAsk reader.now.text (save_ask encoding (K.taken sink) (K.faults sink)) }
    ensures { IsAnswer K.taken K.faults reader.now.text (save_ask encoding (K.taken sink) (K.faults sink)) result }
{
    match save(reader, encoding, &mut sink) {
        Ok(bytes) => Answer::Saved { bytes, sink },
        Err(_) => Answer::SaveFailed { sink },
    }
}
