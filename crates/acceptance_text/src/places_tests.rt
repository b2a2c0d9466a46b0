//! A table of places: what is freed and kept, and that there is always room.
use places::{MAX_DEPTH, PLACES, Table, places_are_sound};
use points::MAX_HANDS;
use std::alloc::Global;
use std::test::Fail;

// Puts something in on `parent` where that leaves the chain short enough, else on nothing. Nothing is put in where
// there is no room.
fn put(table: &mut Table<u32>, parent: u32, held: u32) -> Option<u32> {
    if table.free() == 0 || table.top_id().age == u64::MAX {
        return None;
    }
    match table.depth(parent) {
        Some(depth) if depth < MAX_DEPTH => Some(table.install(Some(parent), held)),
        _ => Some(table.install(None, held)),
    }
}

// Puts hands on a place, if these are hands.
fn notes(table: &mut Table<u32>, place: u32, hands: u64) -> bool {
    if hands >= 1 << 32 {
        return false;
    }
    table.note(place, hands);
    true
}

// A base with hand 3 on it, on that a place with hand 3 on it, and on that the top.
fn three_deep(alloc: Global) -> Option<Table<u32>> {
    let mut table = Table::new(alloc, 10).ok()?;
    if notes(&mut table, 0, 1 << 3)
        && put(&mut table, 0, 11) == Some(1)
        && notes(&mut table, 1, 1 << 3)
        && put(&mut table, 1, 12) == Some(2)
    {
        Some(table)
    } else {
        None
    }
}

// Whether a place has this parent, depth, mask and thing.
fn has(
    table: &Table<u32>,
    place: u32,
    parent: Option<u32>,
    depth: u32,
    mask: u64,
    held: u32,
) -> bool {
    table.live(place)
        && table.parent(place) == parent
        && table.depth(place) == Some(depth)
        && table.mask(place) == Some(mask)
        && table.held(place).copied() == Some(held)
}

fn narrows(table: &mut Table<u32>) -> bool {
    table.narrow();
    true
}

fn quiets(table: &mut Table<u32>, hand: u32) -> bool {
    table.quiet(hand);
    true
}

// Whether so many places are freed.
fn frees(table: &mut Table<u32>, count: usize) -> bool {
    table.collect() == count
}

fn has_mask(table: &Table<u32>, place: u32, mask: u64) -> bool {
    table.mask(place) == Some(mask)
}

// Whether the places 0 to 2 are live, or not.
fn are_live(table: &Table<u32>, live: [bool; 3]) -> bool {
    [table.live(0), table.live(1), table.live(2)] == live
}

fn has_free(table: &Table<u32>, places: usize) -> bool {
    table.free() == places
}

fn is_top(table: &Table<u32>, place: u32) -> bool {
    table.top() == place
}

// Whether the top is another one after something is put in there.
fn gets_another_top(table: &mut Table<u32>, place: u32) -> bool {
    let top = table.top_id();
    table.still(top) && put(table, PLACES as u32, 13) == Some(place) && !table.still(top)
}

fn stand_three_deep(table: &Table<u32>) -> bool {
    has(table, 0, None, 1, 8, 10)
        && has(table, 1, Some(0), 2, 8, 11)
        && has(table, 2, Some(1), 3, 0, 12)
}

#[test]
fn puts_one_on_another(rt: HostRuntime) -> Result<(), Fail> {
    let table = three_deep(rt.alloc()).ok_or("no table")?;
    assert!(rt; stand_three_deep(&table));
    Ok(())
}

fn leaves_the_newest(table: &mut Table<u32>) -> bool {
    narrows(table) && has_mask(table, 0, 0) && has_mask(table, 1, 8) && frees(table, 0)
}

#[test]
fn hand_stays_at_the_newest_alone(rt: HostRuntime) -> Result<(), Fail> {
    let mut table = three_deep(rt.alloc()).ok_or("no table")?;
    assert!(rt; leaves_the_newest(&mut table));
    Ok(())
}

// Whether a place is freed where another is the top, and two more where the hand is quiet.
fn frees_places(table: &mut Table<u32>) -> bool {
    gets_another_top(table, 3)
        && narrows(table)
        && frees(table, 1)
        && are_live(table, [true, true, false])
        && quiets(table, 3)
        && frees(table, 2)
}

fn gives_them_out_again(table: &mut Table<u32>) -> bool {
    has(table, 3, None, 1, 0, 13)
        && has_free(table, PLACES - 1)
        && put(table, 3, 14) == Some(0)
        && is_top(table, 0)
}

#[test]
fn freed_places_come_back(rt: HostRuntime) -> Result<(), Fail> {
    let mut table = three_deep(rt.alloc()).ok_or("no table")?;
    assert!(rt; frees_places(&mut table) && gives_them_out_again(&mut table));
    Ok(())
}

// Whether a hand comes to the top, and something is put in there and has room.
fn takes_turn(table: &mut Table<u32>, turn: u32) -> bool {
    let top = table.top();
    notes(table, top, 1 << (turn % MAX_HANDS as u32))
        && put(table, top, turn).is_some()
        && narrows(table)
        && collects(table)
}

// Whether what is needed no more is freed, and there is room then.
fn collects(table: &mut Table<u32>) -> bool {
    table.collect();
    table.free() >= 8
}

#[test]
fn room_never_ends(rt: HostRuntime) -> Result<(), Fail> {
    let mut table = Table::new(rt.alloc(), 0)?;
    for turn in 1..900 {
        // Hand `turn % 32` comes to the top and stays there until it comes to a later one.
        assert!(rt; takes_turn(&mut table, turn), "{turn}");
    }
    places_are_sound(&table);
    Ok(())
}
