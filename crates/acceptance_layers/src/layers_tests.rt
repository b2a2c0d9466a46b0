//! Shelves and readers: the shapes that edits and squashes give, texts that stay while others come, and places that are
//! freed.
ghost use Rattle.std.specs.Prelude.{◌≡◌, [], ◌∷◌, IfOk};
ghost use Rattle.patch.specs.Hunk.{hunk_of};

use layers::{NewLayer, Reader, Shelf, places_are_sound};
use line_text::{LineText, TextRefusal};
use patch::Change;
use points::{MAX_UNITS, NoMemory, Point, Range, Units};
use std::alloc::Global;
use std::test::Fail;

fn at(row: u32, column: u32) -> Point
    ensures { result ≡ record { row = row; column = column } }
{
    Point { row, column }
}

// The place at a column of the first row, as a range.
fn place(column: u32) -> Range {
    Range::new(at(0, column), at(0, column))
}

fn range(from: Point, to: Point) -> Range {
    if from <= to {
        Range::new(from, to)
    } else {
        Range::new(from, from)
    }
}

fn opened(alloc: Global, text: &str, version: u64) -> Option<Shelf> {
    let text = LineText::from_str(alloc, text).ok()?;
    Shelf::new(alloc, text, version).ok()
}

// A shelf over a text of 400 times the letter a.
fn shelf_of_400(alloc: Global) -> Option<Shelf> {
    let mut units = Units::new(alloc);
    for _ in 0..400 {
        units.append(&[97]).ok()?;
    }
    let text = LineText::from_units(units).ok()?;
    Shelf::new(alloc, text, 0).ok()
}

// Puts the layer on the shelf, where its top is still the one that the layer was built on.
pub(crate) fn put(shelf: &mut Shelf, layer: NewLayer) -> bool {
    if shelf.free() == 0 || !shelf.still(&layer) {
        return false;
    }
    let place = shelf.install(layer);
    shelf.top() == place
}

fn edit(shelf: &mut Shelf, version: u64, range: Range, text: &str) -> bool {
    match shelf.build(version, range, text) {
        Ok(layer) => put(shelf, layer),
        Err(_) => false,
    }
}

// Puts in as many times an x, three units apart, the first at a column.
fn sprinkle(shelf: &mut Shelf, first: u32, count: u64) -> bool {
    let mut column = first;
    for version in 0..count {
        if !edit(shelf, version, place(column), "x") {
            return false;
        }
        column = column.saturating_add(4);
    }
    true
}

// Whether the top's layers have these changes and units.
fn has_shape(shelf: &Shelf, expected: &[(u32, u64)]) -> bool {
    match shelf.shape() {
        Ok(shape) => {
            let sizes = shape.as_slice();
            sizes.len() == expected.len()
                && sizes.iter().zip(expected).all(|(size, (changes, units))| size.changes
                    == *changes
                    && size.units == *units)
        }
        Err(_) => false,
    }
}

pub(crate) fn top_reader(shelf: &Shelf) -> Option<Reader> {
    let top = shelf.top();
    if shelf.live(top) {
        shelf.reader(top).ok()
    } else {
        None
    }
}

fn reads(reader: &Reader, version: u64, expected: &str) -> bool {
    match reader.to_text() {
        Ok(text) => text.as_str() == expected && reader.version() == version,
        Err(_) => false,
    }
}

// Whether the top has this text and version.
fn shows(shelf: &Shelf, version: u64, expected: &str) -> bool {
    match top_reader(shelf) {
        Some(reader) => shelf.version() == version && reads(&reader, version, expected),
        None => false,
    }
}

// The text of the top before and after a call.
fn same_text(left: &Reader, right: &Reader) -> bool {
    match (left.to_text(), right.to_text()) {
        (Ok(left), Ok(right)) => left.as_str() == right.as_str(),
        _ => false,
    }
}

pub(crate) fn squash(shelf: &mut Shelf) -> bool {
    match shelf.build_squash() {
        Ok(Some(layer)) => put(shelf, layer),
        _ => false,
    }
}

fn has_no_squash(shelf: &Shelf) -> bool {
    matches!(shelf.build_squash(), Ok(None))
}

pub(crate) fn rebase(shelf: &mut Shelf) -> bool {
    match shelf.build_base() {
        Ok(layer) => put(shelf, layer),
        Err(_) => false,
    }
}

// Whether a squash and a new base leave the text and the version as they are.
fn joined_keeps_text(shelf: &mut Shelf, squashes: bool) -> bool {
    let version = shelf.version();
    let Some(before) = top_reader(shelf) else {
        return false;
    };
    let done = if squashes {
        squash(shelf)
    } else {
        rebase(shelf)
    };
    match top_reader(shelf) {
        Some(after) => done && shelf.version() == version && same_text(&before, &after),
        None => false,
    }
}

// Whether the 65th change begins a layer, and a squash makes one of two.
fn grows_and_squashes(shelf: &mut Shelf) -> bool {
    sprinkle(shelf, 3, 64)
        && has_shape(shelf, &[(0, 0), (64, 64)])
        && has_no_squash(shelf)
        && sprinkle(shelf, 259, 1)
        && has_shape(shelf, &[(0, 0), (64, 64), (1, 1)])
        && sprinkle(shelf, 263, 5)
        && has_shape(shelf, &[(0, 0), (64, 64), (6, 6)])
        && joined_keeps_text(shelf, true)
        && has_shape(shelf, &[(0, 0), (70, 70)])
}

#[test]
fn edits_and_a_squash_shape_the_layers(rt: HostRuntime) -> Result<(), Fail> {
    let mut shelf = shelf_of_400(rt.alloc()).ok_or("no shelf")?;
    assert!(rt; grows_and_squashes(&mut shelf));
    Ok(())
}

fn becomes_a_base(shelf: &mut Shelf) -> bool {
    sprinkle(shelf, 3, 70) && joined_keeps_text(shelf, false) && has_shape(shelf, &[(0, 0)])
}

#[test]
fn a_new_base_has_no_layer_above(rt: HostRuntime) -> Result<(), Fail> {
    let mut shelf = shelf_of_400(rt.alloc()).ok_or("no shelf")?;
    assert!(rt; becomes_a_base(&mut shelf));
    places_are_sound(&shelf);
    Ok(())
}

// Whether a layer that was built on a top that is gone is told from one that was built on the top.
fn tells_the_top(shelf: &mut Shelf) -> bool {
    let Ok(early) = shelf.build(1, place(0), "x") else {
        return false;
    };
    shelf.still(&early) && edit(shelf, 2, place(0), "y") && !shelf.still(&early)
}

fn has_parent(shelf: &Shelf, place: u32, parent: Option<u32>) -> bool {
    shelf.live(place) && shelf.parent(place) == parent
}

fn hold(shelf: &mut Shelf, place: u32, hand: u32) -> bool {
    if !shelf.live(place) || hand >= 32 {
        return false;
    }
    shelf.note(place, 1 << hand);
    true
}

fn is_top(shelf: &Shelf, place: u32, free: u32) -> bool {
    shelf.top() == place && shelf.free() == free
}

// Whether two edits, one after the other, both stand on the opening text.
fn stand_on_the_first(shelf: &mut Shelf) -> bool {
    has_parent(shelf, 0, None)
        && is_top(shelf, 0, 271)
        && hold(shelf, 0, 5)
        && tells_the_top(shelf)
        && has_parent(shelf, 1, Some(0))
        && shelf.top() == 1
        && edit(shelf, 3, place(0), "z")
        && has_parent(shelf, 2, Some(0))
        && shows(shelf, 3, "zyab")
}

// Whether the place between is freed, and a new base is put there.
fn frees_between(shelf: &mut Shelf) -> bool {
    shelf.narrow();
    shelf.collect() == 1
        && !shelf.live(1)
        && shelf.live(0)
        && rebase(shelf)
        && has_parent(shelf, 1, None)
}

// Whether two more are freed where the hand is quiet.
fn frees_others(shelf: &mut Shelf) -> bool {
    shelf.quiet(5);
    shelf.collect() == 2 && shelf.free() == 271 && shows(shelf, 3, "zyab")
}

#[test]
fn a_place_stands_on_what_is_less_deep(rt: HostRuntime) -> Result<(), Fail> {
    let mut shelf = opened(rt.alloc(), "ab", 7).ok_or("no shelf")?;
    assert!(rt; stand_on_the_first(&mut shelf));
    assert!(rt; frees_between(&mut shelf) && frees_others(&mut shelf));
    Ok(())
}

fn cloned(reader: &Reader) -> Option<Reader> {
    reader.try_clone().ok()
}

fn looks_up(reader: &Reader) -> bool {
    reader.len() == 7
        && reader.extent() == at(1, 3)
        && reader.clip(at(0, 9)) == at(0, 2)
        && reader.clip(at(1, 1)) == at(1, 0)
        && reader.point_at(4) == at(1, 0)
        && reader.line_range(0) == Some(range(at(0, 0), at(0, 2)))
        && reader.line_range(2).is_none()
}

// Whether the range has these units, put behind others and lent one piece behind the other.
fn has_units(alloc: Global, reader: &Reader, of: Range, expected: &[u16]) -> Option<bool> {
    let mut units = Units::new(alloc);
    reader.units(of, &mut units).ok()?;
    let mut pieces = Units::new(alloc);
    for piece in reader.pieces(of) {
        pieces.append(piece).ok()?;
    }
    Some(units.as_slice() == expected && pieces.as_slice() == expected)
}

// Two edits, and two readers of what they made, while a third edit takes it all out.
fn readers_of_two_edits(shelf: &mut Shelf) -> Option<(Reader, Reader)> {
    if !edit(shelf, 5, place(0), "a") || !edit(shelf, 6, range(at(1, 2), at(1, 2)), "c") {
        return None;
    }
    let reader = top_reader(shelf)?;
    let clone = cloned(&reader)?;
    if edit(shelf, 7, range(at(0, 0), at(9, 9)), "") && shows(shelf, 7, "") {
        Some((reader, clone))
    } else {
        None
    }
}

fn keeps_its_text(alloc: Global, clone: &Reader) -> bool {
    reads(clone, 6, "ab\r\n\u{1f600}c")
        && looks_up(clone)
        && has_units(alloc, clone, range(at(0, 1), at(1, 1)), &[98, 13, 10]) == Some(true)
}

#[test]
fn a_reader_keeps_its_text(rt: HostRuntime) -> Result<(), Fail> {
    let mut shelf = opened(rt.alloc(), "b\r\n\u{1f600}", 4).ok_or("no shelf")?;
    let (reader, clone) = readers_of_two_edits(&mut shelf).ok_or("no readers")?;
    drop(shelf);
    drop(reader);
    assert!(rt; keeps_its_text(rt.alloc(), &clone));
    Ok(())
}

// The change that puts a carriage return before the first line feed.
fn return_put_in(alloc: Global) -> Result<Change, NoMemory>
    ensures { IfOk result (λ change. hunk_of change ≡ record {
      old_start = record { row = 0; column = 0 };
      old_end = record { row = 0; column = 0 };
      new_start = record { row = 0; column = 0 };
      new_end = record { row = 0; column = 1 };
      old_text = [];
      new_text = 13 ∷ [];
    }) }
{
    let mut units = Units::new(alloc);
    units.append(&[13])?;
    Ok(Change {
        old_range: Range::new(at(0, 0), at(0, 0)),
        new_range: Range::new(at(0, 0), at(0, 1)),
        old_text: Units::new(alloc),
        new_text: units,
    })
}

fn text_of(alloc: Global, units: &[u16]) -> Result<LineText, NoMemory>
    ensures { IfOk result (λ text. text ≡ units.now) }
{
    let mut items = Units::new(alloc);
    items.append(units)?;
    match LineText::from_units(items) {
        Ok(text) => Ok(text),
        Err(_) => Err(NoMemory),
    }
}

// Whether the change back leaves the line feed of a carriage return and a line feed.
fn undoes(alloc: Global) -> Result<bool, NoMemory> {
    let change = return_put_in(alloc)?;
    let text = text_of(alloc, &[13, 10])?;
    let mut shelf = Shelf::new(alloc, text, 1)?;
    let layer = shelf.build_change(2, &change, true)?;
    Ok(put(&mut shelf, layer) && shows(&shelf, 2, "\n"))
}

// Whether the change puts the carriage return before the line feed again.
fn redoes(alloc: Global) -> Result<bool, NoMemory> {
    let change = return_put_in(alloc)?;
    let text = text_of(alloc, &[10])?;
    let mut shelf = Shelf::new(alloc, text, 2)?;
    let layer = shelf.build_change(3, &change, false)?;
    Ok(put(&mut shelf, layer) && shows(&shelf, 3, "\r\n"))
}

#[test]
fn a_change_is_made_backwards(rt: HostRuntime) -> Result<(), Fail> {
    assert!(rt; undoes(rt.alloc())?);
    assert!(rt; redoes(rt.alloc())?);
    Ok(())
}

// One turn of a hand: it comes to the top, an edit makes another top, and what no hand needs is freed.
fn turn(shelf: &mut Shelf, hand: u32, version: u64) -> bool {
    let top = shelf.top();
    if !hold(shelf, top, hand) || !edit(shelf, version, place(0), "x") {
        return false;
    }
    shelf.narrow();
    shelf.collect();
    shelf.free() >= 8
}

#[test]
fn room_never_ends(rt: HostRuntime) -> Result<(), Fail> {
    let mut shelf = opened(rt.alloc(), "first", 0).ok_or("no shelf")?;
    assert!(rt; hold(&mut shelf, 0, 31));
    for version in 1..900 {
        // Hand 31 stays where it is, and each other one until it comes to a later top.
        assert!(rt;
            turn(&mut shelf, (version % 31) as u32, version),
            "{version}"
        );
    }
    assert!(rt; shelf.live(0) && shelf.version() == 899);
    places_are_sound(&shelf);
    Ok(())
}

// A shelf over a text as long as a text may be.
fn full_shelf(alloc: Global) -> Option<Shelf> {
    let mut units = Units::new(alloc);
    let part = [97; 4096];
    for _ in 0..MAX_UNITS / 4096 {
        units.append(&part).ok()?;
    }
    let text = LineText::from_units(units).ok()?;
    Shelf::new(alloc, text, 0).ok()
}

fn is_too_long(shelf: &Shelf, range: Range, text: &str) -> bool {
    matches!(shelf.build(1, range, text), Err(TextRefusal::TooLong))
}

// Whether a full text takes as much as an edit takes out, and no unit more.
fn stays_full(shelf: &mut Shelf) -> bool {
    let first = range(at(0, 0), at(0, 1));
    is_too_long(shelf, place(5), "x")
        && is_too_long(shelf, first, "xy")
        && edit(shelf, 1, first, "y")
        && has_shape(shelf, &[(0, 0), (1, 2)])
        && edit(shelf, 2, first, "")
        && edit(shelf, 3, place(5), "x")
        && is_too_long(shelf, place(5), "x")
}

#[test]
fn no_text_becomes_too_long(rt: HostRuntime) -> Result<(), Fail> {
    let mut shelf = full_shelf(rt.alloc()).ok_or("no shelf")?;
    assert!(rt; stays_full(&mut shelf));
    Ok(())
}
