//! Searches for literals and by matchers: hits that don't overlap, line endings, seams between layers, surrogates, and makers
//! that refuse.
use layers::{Reader, Shelf};
use line_text::LineText;
use machine::ReadAnswer;
use outer::{LiteralMaker, LiteralMatcher, MakeRefusal, PatternMaker, SureMaker};
use points::{Point, Range, Units};
use search::{FindRefusal, Found, find_literal, find_pattern};
use std::alloc::Global;
use std::test::Fail;

// A reader of a text.
fn reader_of(alloc: Global, text: LineText) -> Option<Reader> {
    let shelf = Shelf::new(alloc, text, 0).ok()?;
    top_reader(&shelf)
}

fn top_reader(shelf: &Shelf) -> Option<Reader> {
    let top = shelf.top();
    if shelf.live(top) {
        shelf.reader(top).ok()
    } else {
        None
    }
}

// Whether these are the number of the hits and the first of them, each as the rows and columns of its ends.
fn is(found: &Found, count: u64, first: &[(u32, u32, u32, u32)]) -> bool {
    let ranges = found.first.as_slice();
    found.count == count
        && ranges.len() == first.len()
        && ranges
            .iter()
            .zip(first)
            .all(|(range, ends)| is_range(*range, *ends))
}

fn is_range(range: Range, ends: (u32, u32, u32, u32)) -> bool {
    let start = Point {
        row: ends.0,
        column: ends.1,
    };
    let end = Point {
        row: ends.2,
        column: ends.3,
    };
    range.start == start && range.end == end
}

// Whether a search of the reader's text finds these.
fn finds_in(
    alloc: Global,
    reader: &Reader,
    needle: &str,
    limit: usize,
    count: u64,
    first: &[(u32, u32, u32, u32)],
) -> bool {
    match find_literal(alloc, reader, needle, limit) {
        Ok(found) => is(&found, count, first),
        Err(_) => false,
    }
}

// Whether a search of the text finds these.
fn finds(
    alloc: Global,
    text: &str,
    needle: &str,
    limit: usize,
    count: u64,
    first: &[(u32, u32, u32, u32)],
) -> bool {
    match LineText::from_str(alloc, text) {
        Ok(text) => match reader_of(alloc, text) {
            Some(reader) => finds_in(alloc, &reader, needle, limit, count, first),
            None => false,
        },
        Err(_) => false,
    }
}

#[test]
fn finds_hits_that_do_not_overlap(rt: HostRuntime) -> Result<(), Fail> {
    let alloc = rt.alloc();
    let both = [(0, 0, 0, 2), (0, 2, 0, 4)];
    assert!(rt; finds(alloc, "aaaa", "aa", 10, 2, &both));
    assert!(rt; finds(alloc, "aaaa", "aa", 1, 2, &both[..1]));
    assert!(rt; finds(alloc, "aaaa", "b", 10, 0, &[]));
    let rows = [(0, 1, 0, 2), (1, 0, 1, 1), (3, 2, 3, 3)];
    assert!(rt; finds(alloc, "xb\nb\n\nyyb\n", "b", 10, 3, &rows));
    Ok(())
}

#[test]
fn finds_pairs_and_line_endings(rt: HostRuntime) -> Result<(), Fail> {
    let alloc = rt.alloc();
    let pairs = [(0, 1, 0, 3), (1, 0, 1, 2)];
    assert!(rt; finds(alloc, "x\u{1F600}\n\u{1F600}y", "\u{1F600}", 10, 2, &pairs));
    assert!(rt; finds(alloc, "a\u{e9}\r\nb", "\u{e9}\r\nb", 10, 1, &[(0, 1, 1, 1)]));
    Ok(())
}

// The error of a search for an empty needle.
fn refuses_empty(alloc: Global) -> bool {
    match LineText::from_str(alloc, "ab") {
        Ok(text) => match reader_of(alloc, text) {
            Some(reader) => {
                matches!(
                    find_literal(alloc, &reader, "", 10),
                    Err(FindRefusal::EmptyNeedle)
                )
            }
            None => false,
        },
        Err(_) => false,
    }
}

#[test]
fn refuses_an_empty_needle(rt: HostRuntime) -> Result<(), Fail> {
    assert!(rt; refuses_empty(rt.alloc()));
    Ok(())
}

// A reader of `abef` into which `c`, a line feed and `d` were put between `b` and `e`: its layers meet there.
fn layered(alloc: Global) -> Option<Reader> {
    let text = LineText::from_str(alloc, "abef").ok()?;
    let mut shelf = Shelf::new(alloc, text, 0).ok()?;
    let at = Point { row: 0, column: 2 };
    let layer = shelf.build(1, Range::new(at, at), "c\nd").ok()?;
    if shelf.free() == 0 || !shelf.still(&layer) {
        return None;
    }
    let _ = shelf.install(layer);
    top_reader(&shelf)
}

fn finds_over_seams(alloc: Global) -> bool {
    match layered(alloc) {
        Some(reader) => finds_in(alloc, &reader, "bc\nde", 10, 1, &[(0, 1, 1, 2)]),
        None => false,
    }
}

// A reader of a surrogate with no partner, and a letter.
fn unpaired(alloc: Global) -> Option<Reader> {
    let mut units = Units::new(alloc);
    units.append(&[0xD800, 97]).ok()?;
    reader_of(alloc, LineText::from_units(units).ok()?)
}

fn finds_unpaired(alloc: Global) -> bool {
    match unpaired(alloc) {
        Some(reader) => finds_in(alloc, &reader, "\u{FFFD}a", 10, 1, &[(0, 0, 0, 2)]),
        None => false,
    }
}

#[test]
fn finds_over_seams_and_in_mended_text(rt: HostRuntime) -> Result<(), Fail> {
    assert!(rt; finds_over_seams(rt.alloc()));
    assert!(rt; finds_unpaired(rt.alloc()));
    Ok(())
}

// Whether a matcher finds these in the text `aaaa`, and shows them as a transcript does.
fn matches_in(
    alloc: Global,
    matcher: &mut LiteralMatcher,
    count: u64,
    first: &[(u32, u32, u32, u32)],
) -> bool {
    match LineText::from_str(alloc, "aaaa") {
        Ok(text) => match reader_of(alloc, text) {
            Some(reader) => match find_pattern(alloc, &reader, matcher, 10) {
                Ok(found) => is(&found, count, first) && is_shown(alloc, &found),
                Err(_) => false,
            },
            None => false,
        },
        Err(_) => false,
    }
}

fn is_shown(alloc: Global, found: &Found) -> bool {
    match found.to_answer(alloc) {
        Ok(ReadAnswer::Found { count, hits }) => {
            count == found.count && hits.as_slice().len() == found.first.as_slice().len()
        }
        _ => false,
    }
}

// A maker that refuses its first call, and then every empty pattern.
fn refuses_first(alloc: Global, fails: Vec<u64>) -> bool {
    let mut maker = LiteralMaker::new(fails);
    let first = matches!(maker.make(alloc, "aa"), Err(MakeRefusal::Refused));
    let empty = matches!(maker.make(alloc, ""), Err(MakeRefusal::Refused));
    match maker.make(alloc, "aa") {
        Ok(mut matcher) => {
            first && empty && matches_in(alloc, &mut matcher, 2, &[(0, 0, 0, 2), (0, 2, 0, 4)])
        }
        Err(_) => false,
    }
}

// A maker that never refuses.
fn makes_surely(alloc: Global, pattern: &str, count: u64, first: &[(u32, u32, u32, u32)]) -> bool {
    match SureMaker::new().make(alloc, pattern) {
        Ok(mut matcher) => matches_in(alloc, &mut matcher, count, first),
        Err(_) => false,
    }
}

#[test]
fn makers_refuse_and_make(rt: HostRuntime) -> Result<(), Fail> {
    let alloc = rt.alloc();
    let fails = vec![in alloc; 1u64]?;
    assert!(rt; refuses_first(alloc, fails));
    assert!(rt; makes_surely(alloc, "aa", 2, &[(0, 0, 0, 2), (0, 2, 0, 4)]));
    assert!(rt; makes_surely(alloc, "", 0, &[]));
    Ok(())
}
