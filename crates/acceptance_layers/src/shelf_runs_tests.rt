//! Random runs of a shelf beside one flat text: edits, changes forth and back, squashes and new bases, while readers keep
//! the texts at which they were taken.
ghost use Rattle.std.specs.Prelude.{◌≡◌};
ghost use Rattle.patch.specs.Hunk.{hunk_of};
ghost use Rattle.layers.specs.Building.{turned};

use crate::layers_tests::{put, rebase, squash, top_reader};
use layers::{NewLayer, Reader, Shelf};
use line_text::LineText;
use patch::Change;
use points::{MAX_UNITS, Point, Range, Units};
use std::alloc::Global;
use std::test::Fail;
use test_numbers::Numbers;

// Texts that cut line endings and surrogate pairs apart, and put them together.
const TEXTS: [&'static str; 8] = ["", "a", "bc", "\r", "\n", "\r\n", "\u{1f600}", "d\ne\r\nf"];

// A reader, with the units and the version of the text at which it was taken.
#[derive(Drop)]
struct Kept {
    reader: Reader,
    units: Units,
    version: u64,
}

// A shelf, the same text flat, and the readers that were taken.
#[derive(Drop)]
struct Desk {
    shelf: Shelf,
    flat: LineText,
    kept: Vec<Kept>,
}

fn desk_of(alloc: Global, text: &str) -> Option<Desk> {
    Some(Desk {
        shelf: Shelf::new(alloc, LineText::from_str(alloc, text).ok()?, 0).ok()?,
        flat: LineText::from_str(alloc, text).ok()?,
        kept: Vec::new(alloc),
    })
}

// Whether a reader shows these units and this version.
fn reads(alloc: Global, reader: &Reader, units: &[u16], version: u64) -> bool {
    let start = Point { row: 0, column: 0 };
    let end = reader.extent();
    if end < start || reader.version() != version || reader.len() != units.len() {
        return false;
    }
    let mut read = Units::new(alloc);
    match reader.units(Range::new(start, end), &mut read) {
        Ok(()) => read.as_slice() == units,
        Err(_) => false,
    }
}

fn range(numbers: &mut Numbers) -> Range {
    let row = numbers.up_to(5);
    let start = Point {
        row,
        column: numbers.up_to(6),
    };
    let end = Point {
        row: row.saturating_add(numbers.up_to(1)),
        column: numbers.up_to(7),
    };
    if start <= end {
        Range::new(start, end)
    } else {
        Range::new(start, start)
    }
}

// Replaces a clipped range in both.
fn edit(numbers: &mut Numbers, desk: &mut Desk, version: u64) -> bool {
    let range = range(numbers);
    let text = TEXTS[numbers.up_to(7) as usize];
    match desk.shelf.build(version, range, text) {
        Ok(layer) => put(&mut desk.shelf, layer) && desk.flat.replace(range, text).is_ok(),
        Err(_) => false,
    }
}

// The change that replaces what stands at a range, or with `back` the change whose way back does that. The other side's
// range isn't looked at.
fn change_of(place: Range, old_text: Units, new_text: Units, back: bool) -> Change
    ensures start { (turned back (hunk_of result)).old_start ≡ place.start }
    ensures end { (turned back (hunk_of result)).old_end ≡ place.end }
    ensures old_text { (turned back (hunk_of result)).old_text ≡ old_text }
    ensures new_text { (turned back (hunk_of result)).new_text ≡ new_text }
{
    let other = Range::new(place.start, place.start);
    if back {
        Change {
            old_range: other,
            new_range: place,
            old_text: new_text,
            new_text: old_text,
        }
    } else {
        Change {
            old_range: place,
            new_range: other,
            old_text,
            new_text,
        }
    }
}

// The layer of a change between two offsets of the top's text.
fn changed(
    alloc: Global,
    shelf: &Shelf,
    from: usize,
    to: usize,
    new_text: Units,
    back: bool,
    version: u64,
) -> Option<NewLayer> {
    let chain = shelf.look();
    if from > to {
        return None;
    }
    if to > chain.len() {
        return None;
    }
    if chain.len() + new_text.len() > MAX_UNITS {
        return None;
    }
    let mut old_text = Units::new(alloc);
    match chain.units(alloc, from, to, &mut old_text) {
        Err(_) => return None,
        Ok(()) => {}
    }
    if from + old_text.len() != to {
        return None;
    }
    let start = chain.point_at(from);
    let end = chain.point_at(to);
    if start <= end {
        let change = change_of(Range::new(start, end), old_text, new_text, back);
        shelf.build_change(version, &change, back).ok()
    } else {
        None
    }
}

// Puts the units into the flat text.
fn put_flat(flat: &mut LineText, from: usize, to: usize, units: &[u16]) -> bool {
    if from > to || to > flat.len() || flat.len() + units.len() > MAX_UNITS {
        return false;
    }
    flat.put(from, to, units).is_ok()
}

// Replaces units between two offsets in both, in the shelf by a change, forth or back.
fn change(alloc: Global, numbers: &mut Numbers, desk: &mut Desk, version: u64) -> Option<bool> {
    let len = desk.flat.len() as u32;
    let from = numbers.up_to(len);
    let to = from.saturating_add(numbers.up_to(4)).min(len);
    let (from, to) = (from as usize, to as usize);
    let back = numbers.up_to(1) == 1;
    let units = Units::from_str(alloc, TEXTS[numbers.up_to(7) as usize]).ok()?;
    let done = put_flat(&mut desk.flat, from, to, units.as_slice());
    let layer = changed(alloc, &desk.shelf, from, to, units, back, version)?;
    Some(put(&mut desk.shelf, layer) && done)
}

// Keeps a reader of the top.
fn keep(alloc: Global, desk: &mut Desk) -> Option<bool> {
    let reader = top_reader(&desk.shelf)?;
    let mut units = Units::new(alloc);
    units.append(desk.flat.slice(0, desk.flat.len())).ok()?;
    let version = desk.shelf.version();
    let kept = Kept {
        reader,
        units,
        version,
    };
    desk.kept.push(kept).ok()?;
    Some(true)
}

// Lets a reader go, which must show what it showed when it was taken.
fn let_go(alloc: Global, numbers: &mut Numbers, desk: &mut Desk) -> bool {
    let count = desk.kept.len();
    if count == 0 {
        return true;
    }
    let place = numbers.up_to(31) as usize % count;
    let kept = desk.kept.remove(place);
    reads(alloc, &kept.reader, kept.units.as_slice(), kept.version)
}

// One turn of both; the version is that of the turn, where it changes the text.
fn turn(alloc: Global, numbers: &mut Numbers, desk: &mut Desk, version: u64) -> Option<bool> {
    match numbers.up_to(15) {
        0 => {
            squash(&mut desk.shelf);
            Some(true)
        }
        1 => Some(rebase(&mut desk.shelf)),
        2 | 3 => keep(alloc, desk),
        4 | 5 => Some(let_go(alloc, numbers, desk)),
        6 | 7 | 8 => change(alloc, numbers, desk, version),
        _ => Some(edit(numbers, desk, version)),
    }
}

// Whether the turn was made and the top shows the flat text behind it. Places that nobody needs are freed.
fn turn_is_alike(alloc: Global, numbers: &mut Numbers, desk: &mut Desk, version: u64) -> bool {
    if turn(alloc, numbers, desk, version) != Some(true) {
        return false;
    }
    desk.shelf.narrow();
    desk.shelf.collect();
    let units = desk.flat.slice(0, desk.flat.len());
    match top_reader(&desk.shelf) {
        Some(reader) => reads(alloc, &reader, units, desk.shelf.version()),
        None => false,
    }
}

#[test]
fn a_shelf_shows_the_flat_text_and_readers_keep_theirs(rt: HostRuntime) -> Result<(), Fail> {
    let mut numbers = Numbers::new(9);
    let mut desk = desk_of(rt.alloc(), "ab\r\nc\u{1f600}d\n").ok_or("no shelf")?;
    for version in 1..2_000 {
        assert!(rt;
            turn_is_alike(rt.alloc(), &mut numbers, &mut desk, version),
            "{version}"
        );
    }
    let readers = desk.kept.len();
    for _ in 0..readers {
        assert!(rt; let_go(rt.alloc(), &mut numbers, &mut desk));
    }
    Ok(())
}
