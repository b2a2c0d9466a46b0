//! Watchers: what is heard, and who is refused.
use crate::patch_cases::change;
use patch::Change;
use std::alloc::Global;
use std::test::Fail;
use watch::{ListWatcher, WatchBack, Watcher, Watchers};

// An insertion of `x` at the start of the text.
fn insertion(alloc: Global) -> Option<Change> {
    change(alloc, ([0, 0, 0, 0], "", [0, 0, 0, 1], "x"))
}

// Whether the watcher was refused as one whose id is taken, and came back with this count.
fn is_taken(answer: &Result<(), WatchBack<ListWatcher>>, count: u64) -> bool {
    match answer {
        Err(WatchBack::WatchTaken(watcher)) => watcher.count() == count,
        _ => false,
    }
}

// Whether a watcher came back that was told so many changes and counts so many.
fn is_back<E>(answer: &Result<(Box<ListWatcher>, u64), E>, told: u64, count: u64) -> bool {
    match answer {
        Ok((watcher, number)) => *number == told && watcher.count() == count,
        Err(_) => false,
    }
}

#[test]
fn taken_and_unknown(rt: HostRuntime) -> Result<(), Fail> {
    let alloc = rt.alloc();
    let change = insertion(alloc).ok_or("no change")?;
    let second = Box::new(alloc, ListWatcher::new(alloc, 1)?)?;
    let first = Box::new(alloc, ListWatcher::new(alloc, 1)?)?;
    let mut watchers = Watchers::new();
    assert!(rt; watchers.detach(7).is_err() && watchers.attach(7, first).is_ok());
    watchers.tell(&change);
    assert!(rt; is_taken(&watchers.attach(7, second), 0));
    watchers.tell(&change);
    assert!(rt; is_back(&watchers.detach(7), 2, 2) && watchers.detach(7).is_err());
    Ok(())
}

// Whether the seats have these ids, in this order.
fn ids_are(watchers: &Watchers<ListWatcher>, ids: &[u32]) -> bool {
    let seats = watchers.seats.as_slice();
    if seats.len() != ids.len() {
        return false;
    }
    for (at, id) in ids.iter().enumerate() {
        match &seats[at] {
            Some(seat) if seat.id == *id => {}
            _ => return false,
        }
    }
    true
}

#[test]
fn heard_since_attached(rt: HostRuntime) -> Result<(), Fail> {
    let alloc = rt.alloc();
    let change = insertion(alloc).ok_or("no change")?;
    let second = Box::new(alloc, ListWatcher::new(alloc, 8)?)?;
    let mut before = ListWatcher::new(alloc, 8)?;
    before.changed(&change);
    let first = Box::new(alloc, before)?;
    let mut watchers = Watchers::new();
    assert!(rt; watchers.attach(5, first).is_ok());
    watchers.tell(&change);
    assert!(rt; watchers.attach(1, second).is_ok());
    watchers.tell(&change);
    assert!(rt; ids_are(&watchers, &[1, 5]));
    assert!(rt; is_back(&watchers.detach(5), 2, 3) && is_back(&watchers.detach(1), 1, 1));
    Ok(())
}
