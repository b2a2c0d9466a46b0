//! Reads of plain texts, with answers worked out by hand.
use line_text::LineText;
use machine::{Encoding, Read, ReadAnswer, Sequence, Span, Text};
use outer::LiteralMatcher;
use plain_reads::{answer, answer_pattern};
use points::{Point, Range};
use snapshot_check::same_answer;
use std::alloc::Global;

fn text(alloc: Global, characters: &str) -> Option<Text> {
    Text::from_str(alloc, characters).ok()
}

// The read of this text is answered so.
fn answers(alloc: Global, characters: &str, read: &Read, wanted: &ReadAnswer) -> Option<bool> {
    let text = LineText::from_str(alloc, characters).ok()?;
    match answer(alloc, &text, read).ok()? {
        None => Some(false),
        Some(found) => Some(same_answer(&found, wanted)),
    }
}

fn at(row: u32, column: u32) -> Point {
    Point { row, column }
}

fn sized(alloc: Global) -> Option<bool> {
    let wanted = ReadAnswer::Size {
        extent: at(1, 1),
        units: 4,
    };
    answers(alloc, "ab\nc", &Read::Size, &wanted)
}

const START: Point = Point { row: 0, column: 0 };

const PAST: Point = Point { row: 9, column: 0 };

// A pair isn't parted.
fn shown(alloc: Global) -> Option<bool> {
    let range = Range::new(START, PAST);
    let read = Read::Text { range, limit: 2 };
    let wanted = ReadAnswer::Text {
        text: text(alloc, "a")?,
        units: 4,
    };
    answers(alloc, "a\u{1F600}b", &read, &wanted)
}

fn one(alloc: Global, start: Point, end: Point) -> Option<Sequence<Span>> {
    let mut spans = Vec::new(alloc);
    spans.push(Span { start, end }).ok()?;
    Some(Sequence::new(spans))
}

// Hits don't overlap, and those beyond the limit are counted alone.
fn found(alloc: Global) -> Option<bool> {
    let needle = text(alloc, "aba")?;
    let read = Read::Find { needle, limit: 1 };
    let wanted = ReadAnswer::Found {
        count: 2,
        hits: one(alloc, at(0, 0), at(0, 3))?,
    };
    answers(alloc, "ababa\naba", &read, &wanted)
}

fn saved(alloc: Global, encoding: Encoding, bytes: u64) -> Option<bool> {
    let name = text(alloc, "f")?;
    let read = Read::Save { name, encoding };
    answers(
        alloc,
        "\u{E9}\u{1F600}",
        &read,
        &ReadAnswer::Saved { bytes },
    )
}

#[test]
fn plain_reads_are_answered(rt: HostRuntime) {
    let alloc = rt.alloc();
    assert!(rt; sized(alloc) == Some(true));
    assert!(rt; shown(alloc) == Some(true));
    assert!(rt; found(alloc) == Some(true));
}

#[test]
fn saves_count_bytes(rt: HostRuntime) {
    let rows = [
        (Encoding::Utf8, 6),
        (Encoding::Utf16Le, 6),
        (Encoding::Utf16Be, 6),
        (Encoding::Latin1, 2),
    ];
    for (encoding, bytes) in rows {
        assert!(rt; saved(rt.alloc(), encoding, bytes) == Some(true), "{bytes}");
    }
}

fn matched(alloc: Global) -> Option<bool> {
    let text = LineText::from_str(alloc, "\u{E9}b\nb").ok()?;
    let mut matcher = LiteralMatcher::new(String::from_str(alloc, "b").ok()?);
    let found = answer_pattern(alloc, &text, &mut matcher, 1).ok()?;
    let wanted = ReadAnswer::Found {
        count: 2,
        hits: one(alloc, at(0, 1), at(0, 2))?,
    };
    Some(same_answer(&found, &wanted))
}

#[test]
fn a_pattern_is_answered_by_its_matcher(rt: HostRuntime) {
    assert!(rt; matched(rt.alloc()) == Some(true));
}
