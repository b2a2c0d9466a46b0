//! Texts by rows and columns: clipping, edits, look-ups, lines and their endings, and the limit.
use line_text::{Ending, LineText, Replaced, TextPart, TextRefusal};
use points::{MAX_UNITS, Point, Range, Units};
use std::alloc::Global;
use std::test::Fail;

fn at(row: u32, column: u32) -> Point {
    Point { row, column }
}

fn made(alloc: Global, text: &str) -> Option<LineText> {
    LineText::from_str(alloc, text).ok()
}

// What an edit answers, where its range is in order.
fn replaced(
    text: &mut LineText,
    start: Point,
    end: Point,
    new: &str,
) -> Option<Result<Replaced, TextRefusal>> {
    if start > end {
        return None;
    }
    Some(text.replace(Range::new(start, end), new))
}

// The points that an edit answers: the clipped ends, and the end of its new units.
type Ends = (Point, Point, Point);

fn has_ends(replaced: Replaced, ends: Ends) -> bool {
    replaced.from == ends.0 && replaced.to == ends.1 && replaced.end == ends.2
}

// Whether an edit answers these three points.
fn edits(text: &mut LineText, range: (Point, Point), new: &str, ends: Ends) -> bool {
    match replaced(text, range.0, range.1, new) {
        Some(Ok(replaced)) => has_ends(replaced, ends),
        _ => false,
    }
}

fn has_units(text: &LineText, expected: &[u16]) -> bool {
    text.slice(0, text.len()) == expected
}

// Whether an edit of a new text answers these three points and leaves these units.
fn edits_to(
    alloc: Global,
    text: &str,
    range: (Point, Point),
    new: &str,
    ends: Ends,
    units: &[u16],
) -> bool {
    match made(alloc, text) {
        Some(mut text) => edits(&mut text, range, new, ends) && has_units(&text, units),
        None => false,
    }
}

#[test]
fn inserts_into_an_empty_text(rt: HostRuntime) {
    let start = at(0, 0);
    let ends = (start, start, at(0, 2));
    assert!(rt; edits_to(rt.alloc(), "", (start, start), "hi", ends, &[104, 105]));
}

#[test]
fn clips_inside_crlf(rt: HostRuntime) {
    let inside = at(0, 2);
    let ends = (at(0, 1), at(0, 1), at(0, 2));
    let units = [97, 120, 13, 10, 98];
    assert!(rt; edits_to(rt.alloc(), "a\r\nb", (inside, inside), "x", ends, &units));
}

#[test]
fn clips_inside_a_pair(rt: HostRuntime) {
    let inside = at(0, 1);
    let ends = (at(0, 0), at(0, 0), at(0, 1));
    let units = [120, 0xd83d, 0xde00];
    assert!(rt; edits_to(rt.alloc(), "\u{1f600}", (inside, inside), "x", ends, &units));
}

#[test]
fn a_range_past_the_end_replaces_everything(rt: HostRuntime) {
    let whole = (at(0, 0), at(9, 9));
    let ends = (at(0, 0), at(1, 2), at(0, 1));
    assert!(rt; edits_to(rt.alloc(), "ab\ncd", whole, "z", ends, &[122]));
}

fn is_encoded(alloc: Global, text: &str, units: &[u16]) -> bool {
    match made(alloc, text) {
        Some(text) => has_units(&text, units),
        None => false,
    }
}

#[test]
fn encodes_as_utf16(rt: HostRuntime) {
    // U+10437 and U+24B62 are the examples of the Unicode Standard and of RFC 2781.
    let expected = [0xd801, 0xdc37, 0xd852, 0xdf62, 0xffff, 0, 0xfeff];
    assert!(rt;
        is_encoded(
            rt.alloc(),
            "\u{10437}\u{24b62}\u{ffff}\0\u{feff}",
            &expected
        )
    );
}

// Whether the text has the point at the offset, and finds it again.
fn finds(text: &LineText, offset: usize, point: Point) -> bool {
    offset <= text.len() && text.point_at(offset) == point && text.offset_of(point) == Some(offset)
}

fn finds_nothing(text: &LineText, point: Point) -> bool {
    text.offset_of(point).is_none()
}

fn clips(text: &LineText, point: Point, clipped: Point) -> bool {
    text.clip(point) == clipped && text.offset_of(clipped).is_some()
}

// Whether each point is found at its offset, and each offset at its point.
fn finds_all(text: &LineText, places: &[(usize, Point)]) -> bool {
    for (offset, point) in places {
        if !finds(text, *offset, *point) {
            return false;
        }
    }
    true
}

fn finds_none(text: &LineText, points: &[Point]) -> bool {
    for point in points {
        if !finds_nothing(text, *point) {
            return false;
        }
    }
    true
}

#[test]
fn finds_points_and_offsets(rt: HostRuntime) -> Result<(), Fail> {
    // The rows are "ab" CR LF, CR "c" LF and "", by offsets 0 to 3, 4 to 6 and 7.
    let text = made(rt.alloc(), "ab\r\n\rc\n").ok_or("no text")?;
    let places = [
        (0, at(0, 0)),
        (2, at(0, 2)),
        (3, at(0, 3)),
        (4, at(1, 0)),
        (6, at(1, 2)),
        (7, at(2, 0)),
    ];
    assert!(rt; finds_all(&text, &places));
    assert!(rt; finds_none(&text, &[at(0, 4), at(1, 3), at(2, 1), at(3, 0)]));
    Ok(())
}

fn clips_all(text: &LineText, clipped: &[(Point, Point)]) -> bool {
    for (point, expected) in clipped {
        if !clips(text, *point, *expected) {
            return false;
        }
    }
    true
}

#[test]
fn clips_points(rt: HostRuntime) -> Result<(), Fail> {
    let text = made(rt.alloc(), "ab\r\n\rc\n").ok_or("no text")?;
    let clipped = [
        (at(0, 9), at(0, 2)),
        (at(0, 3), at(0, 2)),
        (at(1, 9), at(1, 2)),
        (at(2, 1), at(2, 0)),
        (at(7, 0), at(2, 0)),
    ];
    assert!(rt; clips_all(&text, &clipped));
    Ok(())
}

// Whether the text has the row, with these units and this ending.
fn has_row(text: &LineText, row: u32, line: &[u16], ending: Ending) -> bool {
    text.line(row) == Some(line) && text.ending(row) == Some(ending)
}

// Whether the text has so many rows, and none behind them.
fn has_rows(text: &LineText, rows: u32) -> bool {
    text.rows() == rows && text.line(rows).is_none() && text.ending(rows).is_none()
}

// Whether the text has the row, with the units of this line and this ending.
fn has_line(alloc: Global, text: &LineText, row: u32, line: &str, ending: Ending) -> bool {
    match Units::from_str(alloc, line) {
        Ok(units) => has_row(text, row, units.as_slice(), ending),
        Err(_) => false,
    }
}

// Whether the text has these lines with their endings, and no row behind them.
fn has_lines(alloc: Global, text: &LineText, lines: &[(&str, Ending)]) -> bool {
    let mut row = 0;
    for (line, ending) in lines {
        if !has_line(alloc, text, row, line, *ending) {
            return false;
        }
        row = row.saturating_add(1);
    }
    has_rows(text, row)
}

#[test]
fn tells_lines_and_endings(rt: HostRuntime) -> Result<(), Fail> {
    // A carriage return ends no row by itself, also at the end of the text.
    let text = made(rt.alloc(), "a\rb\r\n\nc\n\r\nd\r").ok_or("no text")?;
    let lines = [
        ("a\rb", Ending::CrLf),
        ("", Ending::Lf),
        ("c", Ending::Lf),
        ("", Ending::CrLf),
        ("d\r", Ending::Last),
    ];
    assert!(rt; has_lines(rt.alloc(), &text, &lines));
    Ok(())
}

#[test]
fn ends_with_an_empty_row_behind_a_line_feed(rt: HostRuntime) -> Result<(), Fail> {
    let text = made(rt.alloc(), "x\n").ok_or("no text")?;
    assert!(rt; has_row(&text, 0, &[120], Ending::Lf));
    assert!(rt; has_row(&text, 1, &[], Ending::Last) && has_rows(&text, 2));
    Ok(())
}

// The text of these units.
fn made_of(alloc: Global, items: &[u16]) -> Option<LineText> {
    let mut units = Units::new(alloc);
    units.append(items).ok()?;
    LineText::from_units(units).ok()
}

// Whether the text reads so.
fn reads(text: &LineText, expected: &str) -> bool {
    match text.to_text() {
        Ok(text) => text.as_str() == expected,
        Err(_) => false,
    }
}

fn has_extent(text: &LineText, extent: Point) -> bool {
    text.extent() == extent
}

// Whether the text has a lone surrogate in each of its two rows.
fn is_unpaired(text: &LineText) -> bool {
    reads(text, "\u{fffd}\n\u{fffd}a")
        && has_rows(text, 2)
        && has_row(text, 1, &[0xde00, 97], Ending::Last)
        && has_extent(text, at(1, 2))
}

#[test]
fn takes_units_that_are_not_well_formed(rt: HostRuntime) -> Result<(), Fail> {
    let text = made_of(rt.alloc(), &[0xd83d, 10, 0xde00, 97]).ok_or("no text")?;
    assert!(rt; is_unpaired(&text));
    Ok(())
}

// "two" and its line feed go, and two rows come: "one", "2", "zwei", "three", "four".
fn puts_rows_in(text: &mut LineText) -> bool {
    let ends = (at(1, 0), at(2, 0), at(3, 0));
    edits(text, (at(1, 0), at(2, 0)), "2\nzwei\n", ends)
        && finds(text, 11, at(3, 0))
        && finds(text, 21, at(4, 4))
}

// The rows 1 to 3 become one: "one", "four".
fn takes_rows_out(text: &mut LineText) -> bool {
    let ends = (at(1, 0), at(4, 0), at(1, 0));
    edits(text, (at(1, 0), at(4, 0)), "", ends)
        && has_extent(text, at(1, 4))
        && finds(text, 8, at(1, 4))
}

#[test]
fn keeps_rows_through_edits(rt: HostRuntime) -> Result<(), Fail> {
    let mut text = made(rt.alloc(), "one\ntwo\nthree\nfour").ok_or("no text")?;
    assert!(rt; puts_rows_in(&mut text) && takes_rows_out(&mut text));
    Ok(())
}

// So many units, which are one row.
fn row_of(alloc: Global, len: usize) -> Option<String> {
    "a".repeat(alloc, len).ok()
}

// The text of one row of so many units, or why there is none.
fn row_made(alloc: Global, len: usize) -> Option<Result<LineText, TextRefusal>> {
    let row = row_of(alloc, len)?;
    Some(LineText::from_str(alloc, row.as_str()))
}

// Whether one unit more at the start of a text is refused as too much.
fn is_full(text: &mut LineText) -> bool {
    let answer = replaced(text, at(0, 0), at(0, 0), "b");
    matches!(answer, Some(Err(TextRefusal::TooLong)))
}

// Whether a text of the most units takes no unit more, and stays as it was.
fn stays_full(alloc: Global) -> bool {
    match row_made(alloc, MAX_UNITS) {
        Some(Ok(mut text)) => is_full(&mut text)
            && text.len() == MAX_UNITS
            && has_extent(&text, at(0, MAX_UNITS as u32)),
        _ => false,
    }
}

fn is_too_long(alloc: Global, len: usize) -> bool {
    matches!(row_made(alloc, len), Some(Err(TextRefusal::TooLong)))
}

#[test]
fn refuses_more_than_the_most_units(rt: HostRuntime) {
    assert!(rt; stays_full(rt.alloc()));
    assert!(rt; is_too_long(rt.alloc(), MAX_UNITS + 1));
}

// A text of the units of `first` from one offset on, and of those of `second` up to another.
fn put_together(
    alloc: Global,
    first: &LineText,
    from: usize,
    second: &LineText,
    to: usize,
) -> Option<LineText> {
    let mut text = LineText::with_room(alloc, 8, 2).ok()?;
    if append_part(&mut text, first, from, first.len()) && append_part(&mut text, second, 0, to) {
        Some(text)
    } else {
        None
    }
}

// Puts a part of another text at the end, where it has such a part and the result isn't too long.
fn append_part(text: &mut LineText, other: &LineText, from: usize, to: usize) -> bool {
    if from > to || to > other.len() {
        return false;
    }
    append_piece(text, other.part(from, to))
}

fn append_piece(text: &mut LineText, piece: TextPart<'_>) -> bool {
    if text.len() + piece.len() > MAX_UNITS {
        return false;
    }
    text.append(piece).is_ok()
}

// The text of "d\nef" and "gh\ni".
fn parts_together(alloc: Global) -> Option<LineText> {
    let first = made(alloc, "ab\ncd\nef")?;
    let second = made(alloc, "gh\nij")?;
    put_together(alloc, &first, 4, &second, 4)
}

// Whether the parts have these units, and the third row starts there.
fn are_together(alloc: Global, units: &[u16], row: usize) -> bool {
    match parts_together(alloc) {
        Some(text) => has_units(&text, units) && finds(&text, row, at(2, 0)),
        None => false,
    }
}

#[test]
fn carries_the_starts_of_parts_over(rt: HostRuntime) {
    assert!(rt; are_together(rt.alloc(), &[100, 10, 101, 102, 103, 104, 10, 105], 7));
}
