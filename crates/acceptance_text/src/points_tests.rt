//! Points, ranges, distances, units and limits.
use points::{
    Distance, Hits, Ids, LAST, MAX_CHANGES, MAX_COORD, MAX_HANDS, MAX_MARKS, MAX_NODES, MAX_STEPS,
    MAX_UNITS, MAX_WATCHERS, Mark, Point, Range, Splice, Units, extent_capped, extent_of,
    has_extent, laws, leads_near, leads_within, led_by, offset_of, traversal, traverse,
    traverse_capped, traverse_near,
};
use std::alloc::Global;
use std::test::Fail;

fn at(row: u32, column: u32) -> Point {
    Point { row, column }
}

#[test]
fn limits_are_these(rt: HostRuntime) {
    assert!(rt; MAX_UNITS == 16_777_216 && MAX_CHANGES == 16_777_216 && MAX_NODES == 16_777_216);
    assert!(rt; MAX_COORD == 1_073_741_824 && MAX_MARKS == 1_000_000 && MAX_STEPS == 1_000);
    assert!(rt; MAX_WATCHERS == 64 && MAX_HANDS == 32 && LAST == 9_223_372_036_854_775_807);
}

// The ends of the range between two points, where they are in order.
fn ends(start: Point, end: Point) -> Option<(Point, Point)> {
    if start > end {
        return None;
    }
    let range = Range::new(start, end);
    Some((range.start, range.end))
}

#[test]
fn makes_ranges_of_ordered_points(rt: HostRuntime) {
    assert_eq!(rt; ends(at(1, 9), at(2, 3)), Some((at(1, 9), at(2, 3))));
    assert_eq!(rt; ends(at(2, 3), at(1, 9)), None);
    assert!(rt; Point::default() < at(0, 1));
}

// Whether the extent leads from one point to the other, there and back, in every way of reckoning.
fn leads(from: Point, extent: Point, to: Point) -> bool {
    if from.row > 9 || from.column > 9 || extent.row > 9 || extent.column > 9 {
        return false;
    }
    traverse(from, extent) == to
        && traverse_near(from, extent) == Some(to)
        && traverse_capped(from, extent) == to
        && Distance::behind(from, extent) == Distance::of_point(to)
        && leads_within(from, extent, to)
        && leads_near(from, extent)
        && traversal(to, from) == extent
}

// Whether each extent leads from the first point to the third; the laws are called, and say nothing here.
fn all_lead(steps: &[(Point, Point, Point)]) -> bool {
    for (from, extent, to) in steps {
        if !leads(*from, *extent, *to) {
            return false;
        }
        laws::inverse(*from, *extent);
        laws::associative(*from, *extent, *to);
        laws::unit(*from);
    }
    true
}

#[test]
fn leads_from_point_to_point(rt: HostRuntime) {
    let steps = [
        (at(2, 5), at(0, 3), at(2, 8)),
        (at(2, 5), at(1, 3), at(3, 3)),
        (at(0, 0), at(4, 0), at(4, 0)),
    ];
    assert!(rt; all_lead(&steps));
}

fn are_far(steps: &[(Point, Point, Point)]) -> bool {
    for (from, extent, capped) in steps {
        if !is_far(*from, *extent, *capped) {
            return false;
        }
    }
    true
}

// Whether this point is the last that isn't far, and stays what it is.
fn is_last_near(near: Point) -> bool {
    !near.is_far()
        && at(MAX_COORD + 1, 0).is_far()
        && Distance::of_point(near).point() == Some(near)
}

#[test]
fn stops_at_the_greatest_coordinate(rt: HostRuntime) {
    let last = at(u32::MAX, u32::MAX);
    let far = [
        (at(MAX_COORD, 0), at(1, 0), at(MAX_COORD + 1, 0)),
        (at(0, MAX_COORD), at(0, 1), at(0, MAX_COORD + 1)),
        (at(1, u32::MAX), at(0, 1), at(1, u32::MAX)),
        (at(u32::MAX, 7), at(1, 3), last),
    ];
    assert!(rt; are_far(&far));
    assert!(rt; is_last_near(at(MAX_COORD, MAX_COORD)));
    assert_eq!(rt; traversal(at(1, 2), at(3, 4)), at(0, 2));
}

// Whether the point behind the extent is too far to name, and is cut down to `capped`.
fn is_far(from: Point, extent: Point, capped: Point) -> bool {
    traverse_near(from, extent).is_none()
        && !leads_near(from, extent)
        && !leads_within(from, extent, from)
        && traverse_capped(from, extent) == capped
}

// Whether the laws of texts hold for these units: they are called, and say nothing here.
fn keeps_laws(items: &[u16]) -> bool {
    laws::joined(items, items);
    laws::found(items, at(1, 0), 4);
    laws::clipped(items, at(0, 3));
    laws::clipped_in_order(items, at(0, 3), at(1, 0));
    laws::well_formed(items);
    laws::mending(items);
    true
}

// Whether these are the points of the offsets of the units.
fn are_points(items: &[u16], points: &[Point]) -> bool {
    for (offset, point) in points.iter().enumerate() {
        if offset_of(items, *point) != Some(offset) {
            return false;
        }
    }
    offset_of(items, at(9, 9)).is_none()
}

// Whether the units have this extent, in every way of reckoning.
fn is_extent(items: &[u16], extent: Point) -> bool {
    items.len() <= 9
        && extent_of(items) == extent
        && has_extent(items, extent)
        && extent_capped(items) == extent
        && led_by(at(7, 0), items) == at(7 + extent.row.min(9), extent.column)
}

// Whether the text has this extent, and the points of its offsets are these.
fn has_points(alloc: Global, text: &str, extent: Point, points: &[Point]) -> bool {
    match Units::from_str(alloc, text) {
        Ok(units) => keeps_laws(units.as_slice())
            && is_extent(units.as_slice(), extent)
            && are_points(units.as_slice(), points)
            && units.into_vec().len().saturating_add(1) == points.len(),
        Err(_) => false,
    }
}

#[test]
fn counts_rows_by_line_feeds(rt: HostRuntime) {
    // A carriage return is a unit as any other.
    let points = [
        at(0, 0),
        at(0, 1),
        at(0, 2),
        at(0, 3),
        at(1, 0),
        at(1, 1),
        at(2, 0),
        at(2, 1),
        at(2, 2),
    ];
    assert!(rt; has_points(rt.alloc(), "ab\r\nc\n\u{10437}", at(2, 2), &points));
    assert!(rt; has_points(rt.alloc(), "", at(0, 0), &[at(0, 0)]));
}

// Whether the text is encoded as these units, and read back from them.
fn is_encoded(alloc: Global, text: &str, expected: &[u16]) -> bool {
    match Units::from_str(alloc, text) {
        Ok(units) => units.as_slice() == expected && reads(&units, text),
        Err(_) => false,
    }
}

// Whether these units are read as this text.
fn reads(units: &Units, text: &str) -> bool {
    match units.to_text() {
        Ok(read) => read.as_str() == text,
        Err(_) => false,
    }
}

// These units, put at the end of none.
fn put_in(alloc: Global, items: &[u16]) -> Option<Units> {
    let mut units = Units::from_str(alloc, "gone").ok()?;
    units.clear();
    units.append(items).ok()?;
    Some(units)
}

// Whether a copy of the units is as long, and is read as this text.
fn copy_reads(units: &Units, text: &str) -> bool {
    match units.try_clone() {
        Ok(copy) => copy.len() == units.len() && reads(&copy, text),
        Err(_) => false,
    }
}

// Whether these units are read as this text, and so is a copy of them.
fn is_mended(alloc: Global, items: &[u16], text: &str) -> bool {
    match put_in(alloc, items) {
        Some(units) => units.len() == items.len()
            && reads(&units, text)
            && copy_reads(&units, text),
        None => false,
    }
}

#[test]
fn encodes_and_decodes_units(rt: HostRuntime) {
    // U+10437 and U+24B62 are the examples of the Unicode Standard and of RFC 2781.
    let text = "\u{10437}\u{24b62}\u{ffff}\0\u{feff}";
    let units = [0xd801, 0xdc37, 0xd852, 0xdf62, 0xffff, 0, 0xfeff];
    assert!(rt; is_encoded(rt.alloc(), text, &units));
    // A high surrogate without its partner, and a low one.
    assert!(rt; is_mended(rt.alloc(), &[0xd83d, 97, 0xde00], "\u{fffd}a\u{fffd}"));
    assert_eq!(rt; Units::new(rt.alloc()).len(), 0);
}

// Whether a list of ids gives back the ids that it was made of.
fn keeps_ids(ids: Vec<u32>) -> bool {
    let count = ids.len();
    let ids = Ids::from_vec(ids);
    ids.len() == count
        && ids.iter().count() == count
        && ids.as_slice().len() == count
        && ids.into_vec().len() == count
}

// No id in any of the four sets.
fn no_hits(alloc: Global) -> Hits {
    Hits {
        touch: Ids::from_vec(Vec::new(alloc)),
        inside: Ids::from_vec(Vec::new(alloc)),
        overlap: Ids::from_vec(Vec::new(alloc)),
        surround: Ids::from_vec(Vec::new(alloc)),
    }
}

fn are_none(hits: &Hits) -> bool {
    hits.touch.len() == 0 && hits.surround.len() == 0
}

#[test]
fn lists_ids(rt: HostRuntime) -> Result<(), Fail> {
    let ids = vec![in rt.alloc(); 3u32, 4]?;
    assert!(rt; keeps_ids(ids));
    assert!(rt; are_none(&no_hits(rt.alloc())));
    Ok(())
}

#[test]
fn states_laws_of_marks_and_hits() {
    let mark = Mark {
        id: 1,
        start: at(0, 0),
        end: at(0, 2),
        exclusive: false,
    };
    let splice = Splice {
        start: at(0, 1),
        old_end: at(0, 1),
        new_end: at(0, 4),
    };
    laws::movement(splice, mark);
    laws::worked_marks();
    laws::worked_hits();
}
