//! One read of each kind, on a text with a pair and on one with two hits, and a save that fails.
ghost use Rattle.std.specs.Prelude.{◌≡◌, [], ◌∷◌, IfSome, IsTrue};
ghost use Rattle.points.specs.Text.{IsWellFormed};
ghost use Rattle.answers.specs.Asks.{ask, CanAskAll};

use answers::{Answer, Read, answer_all, refuse_all};
use layers::{Reader, Shelf};
use line_text::LineText;
use machine::Encoding;
use outer::{LiteralMaker, LiteralMatcher, Matcher, MemSink, PatternMaker, Sink};
use points::{MAX_UNITS, Point, Range, Units};
use search::Found;
use std::alloc::Global;

// A reader of a text.
fn reader_of(alloc: Global, text: &str) -> Option<Reader> {
    let units = Units::from_str(alloc, text).ok()?;
    let shelf = Shelf::new(alloc, LineText::from_units(units).ok()?, 0).ok()?;
    let top = shelf.top();
    if shelf.live(top) {
        shelf.reader(top).ok()
    } else {
        None
    }
}

// The answer to one read.
fn answered<M: Matcher, K: Sink + Drop>(
    alloc: Global,
    reader: &Reader,
    read: Read<M, K>,
) -> Option<Answer<K>>
    requires { CanAskAll reader.now.text (ask M.tells K.taken K.faults read ∷ []) }
{
    let room = Vec::with_capacity(alloc, 1).ok()?;
    let mut reads = Vec::with_capacity(alloc, 1).ok()?;
    reads.push_reserved(read);
    answer_all(alloc, reader, reads, room).pop()
}

// The answer to a read of this text that saves nothing and finds nothing.
fn told(alloc: Global, text: &str, range: Option<Range>) -> Option<Answer<MemSink>> {
    let reader = reader_of(alloc, text)?;
    match range {
        Some(range) => answered::<LiteralMatcher, MemSink>(
            alloc,
            &reader,
            Read::Text { range, limit: 2 },
        ),
        None => answered::<LiteralMatcher, MemSink>(alloc, &reader, Read::Size),
    }
}

// Whether the size of a text of three units is told.
fn tells_size(alloc: Global) -> bool {
    matches!(
        told(alloc, "a\u{1F600}", None),
        Some(Answer::Size {
            units: 3,
            extent: Point { row: 0, column: 3 }
        })
    )
}

#[test]
fn tells_the_size_of_a_text(rt: HostRuntime) {
    assert!(rt; tells_size(rt.alloc()));
}

// How many units a text has, and how many of them are shown.
fn shown(alloc: Global, text: &str) -> Option<(u64, usize)> {
    let past = Point { row: 9, column: 0 };
    let range = Range::new(Point { row: 0, column: 0 }, past);
    match told(alloc, text, Some(range)) {
        Some(Answer::Text { units, text }) => Some((units, text.len())),
        _ => None,
    }
}

#[test]
fn a_part_of_a_text_parts_no_pair(rt: HostRuntime) {
    assert_eq!(rt; shown(rt.alloc(), "a\u{1F600}"), Some((3, 1)));
    assert_eq!(rt; shown(rt.alloc(), "abc"), Some((3, 2)));
}

// The number of hits, and the column of the first that is shown.
fn hits_in(answer: Option<Answer<MemSink>>) -> Option<(u64, usize, u32)> {
    match answer {
        Some(Answer::Found(Found { count, first })) => {
            let ranges = first.as_slice();
            let column = ranges.first()?.start.column;
            Some((count, ranges.len(), column))
        }
        _ => None,
    }
}

// The hits of `b`, as a literal.
fn found(alloc: Global, text: &str) -> Option<(u64, usize, u32)> {
    let reader = reader_of(alloc, text)?;
    let needle = String::from_str(alloc, "b").ok()?;
    if needle.is_empty() {
        return None;
    }
    let read = Read::Find { needle, limit: 1 };
    hits_in(answered::<LiteralMatcher, MemSink>(alloc, &reader, read))
}

// The same by a matcher.
fn matched(alloc: Global, text: &str) -> Option<(u64, usize, u32)> {
    let reader = reader_of(alloc, text)?;
    let mut maker = LiteralMaker::new(Vec::new(alloc));
    let matcher = maker.make(alloc, "b").ok()?;
    let read = Read::Pattern { matcher, limit: 1 };
    hits_in(answered::<LiteralMatcher, MemSink>(alloc, &reader, read))
}

#[test]
fn finds_a_literal_and_a_pattern(rt: HostRuntime) {
    assert_eq!(rt; found(rt.alloc(), "abcb"), Some((2, 1, 1)));
    assert_eq!(rt; matched(rt.alloc(), "abcb"), Some((2, 1, 1)));
}

// The units of a reader's text.
fn units_of(alloc: Global, reader: &Reader) -> Option<Units>
    ensures { IfSome result (λ units. units ≡ reader.now.text) }
{
    prove!(reader.len() <= MAX_UNITS);
    let past = Point {
        row: u32::MAX,
        column: 0,
    };
    let mut units = Units::new(alloc);
    match reader.units(Range::new(Point { row: 0, column: 0 }, past), &mut units) {
        Ok(()) => Some(units),
        Err(_) => None,
    }
}

// Whether no surrogate lacks its partner.
fn is_whole(alloc: Global, units: &[u16]) -> bool
    ensures { IsTrue result → IsWellFormed units.now }
{
    points::laws::well_formed(units);
    let read: Result<Result<_, _>, _> = String::from_utf16(alloc, units);
    matches!(read, Ok(Ok(_)))
}

// A reader of a text in which no surrogate lacks its partner.
fn whole_reader(alloc: Global, text: &str) -> Option<Reader>
    ensures { IfSome result (λ reader. IsWellFormed reader.text) }
{
    let reader = reader_of(alloc, text)?;
    let units = units_of(alloc, &reader)?;
    if is_whole(alloc, units.as_slice()) {
        Some(reader)
    } else {
        None
    }
}

// The answer to a save in UTF-16 to a sink with so much room.
fn saved(alloc: Global, text: &str, room: usize) -> Option<Answer<MemSink>> {
    let reader = whole_reader(alloc, text)?;
    let sink = MemSink::new(alloc, room, Vec::new(alloc)).ok()?;
    let read = Read::Save {
        encoding: Encoding::Utf16Be,
        sink,
    };
    answered::<LiteralMatcher, MemSink>(alloc, &reader, read)
}

// Whether a save to a sink with enough room puts these bytes.
fn saves(alloc: Global) -> bool {
    match saved(alloc, "ab", 4) {
        Some(Answer::Saved { bytes, sink }) => bytes == 4 && sink.bytes() == b"\0a\0b".as_slice(),
        _ => false,
    }
}

#[test]
fn saves_a_text_or_hands_the_sink_back(rt: HostRuntime) {
    assert!(rt; saves(rt.alloc()));
    assert!(rt; matches!(saved(rt.alloc(), "ab", 3), Some(Answer::SaveFailed { .. })));
}

// Whether one read is refused by one answer.
fn refused(alloc: Global) -> Option<bool> {
    let room = Vec::with_capacity(alloc, 1).ok()?;
    let read = Read::<LiteralMatcher, MemSink>::Size;
    let reads = Vec::from_array(alloc, [read]).ok()?;
    let answers = refuse_all(reads, room);
    Some(answers.len() == 1 && matches!(answers.first(), Some(Answer::NoMemory)))
}

#[test]
fn want_of_memory_is_an_answer(rt: HostRuntime) {
    assert_eq!(rt; refused(rt.alloc()), Some(true));
}
