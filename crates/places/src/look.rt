//! What stands where, read from the entries.
ghost use Rattle.std.specs.Prelude.{◌≡◌, ◌+◌, ◌-◌, ◌<◌, ◌≤◌, ◌^◌, ℕ, false, length, slice_index_or, option_copied, IfSome, IsTrue};
ghost use Rattle.places.specs.Placed.{placed_at, is_live, depth_on, top_of, top_id};
ghost use Rattle.places.specs.Table.{IsTable, IsLowestFree};

use crate::marks::mark;
use crate::placed::{PLACES, Placed, TopId};

// What stands at a place.
pub(crate) fn find<X>(entries: &[Placed<X>], place: u32) -> Option<&Placed<X>>
    ensures { option_copied result ≡ placed_at entries.now place }
{
    entries.iter().find(|entry| entry.place == place)
}

// Which top there is.
pub(crate) fn newest<X>(entries: &[Placed<X>]) -> TopId
    ensures { result ≡ top_id entries.now }
{
    match entries.last() {
        Some(entry) => TopId {
            place: entry.place,
            age: entry.age,
            depth: entry.depth,
        },
        None => TopId {
            place: 0,
            age: 0,
            depth: 0,
        },
    }
}

// How deep what stands on `parent` is.
pub(crate) fn deeper<X>(entries: &[Placed<X>], parent: Option<u32>) -> u32
    requires { depth_on entries.now parent ≤ 8 }
    ensures { result ≡ depth_on entries.now parent }
{
    match parent {
        Some(place) => match find(entries, place) {
            Some(below) => below.depth + 1,
            None => 1,
        },
        None => 1,
    }
}

// The lowest place where nothing stands.
pub(crate) fn lowest_free<X>(entries: &[Placed<X>]) -> u32
    requires { length entries.now < 272 }
    ensures { IsLowestFree entries.now result }
{
    let taken = taken_places(entries);
    let mut place = 0;
    while place < PLACES && taken[place] {
        place += 1;
    }
    place as u32
}

// Whether anything stands at each place.
fn taken_places<X>(entries: &[Placed<X>]) -> [bool; PLACES]
    ensures { (p : ℕ) → p < 272 → slice_index_or result p false ≡ is_live entries.now p }
{
    let mut taken = [false; PLACES];
    for entry in entries {
        mark(&mut taken, entry.place);
    }
    taken
}
