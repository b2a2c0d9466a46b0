//! Long runs of mixed commands: a buffer replies as the plain machine does, also with squashes between.
use crate::asked::{Ask, Corners};
use crate::played::{played, replayed};
use crate::told::first_difference;
use machine::How;
use std::alloc::Global;
use std::test::Fail;
use test_numbers::Numbers;

// Texts that cut line endings and surrogate pairs apart, and put them together.
const TEXTS: [&'static str; 8] = ["", "a", "bc", "\r", "\n", "\r\n", "\u{1f600}", "d\ne\r\nf"];

const HOWS: [How; 7] = [
    How::Intersecting,
    How::Containing,
    How::ContainedIn,
    How::StartingIn,
    How::StartingAt,
    How::EndingIn,
    How::EndingAt,
];

fn corners(numbers: &mut Numbers) -> Corners {
    let row = numbers.up_to(4);
    let column = numbers.up_to(5);
    let end_row = row.saturating_add(numbers.up_to(1));
    [row, column, end_row, numbers.up_to(6)]
}

fn on_the_text(numbers: &mut Numbers) -> Ask {
    match numbers.up_to(9) {
        0 => Ask::Text(corners(numbers), numbers.up_to(9)),
        1 => Ask::Text([0, 0, 99, 0], 1000),
        2 | 3 => Ask::Undo,
        4 => Ask::Redo,
        5 => Ask::Squash,
        _ => Ask::Edit(corners(numbers), TEXTS[numbers.up_to(7) as usize]),
    }
}

fn on_marks_and_watchers(numbers: &mut Numbers) -> Ask {
    let id = numbers.up_to(9);
    match numbers.up_to(9) {
        0 | 1 | 2 => Ask::Mark(id, corners(numbers), numbers.up_to(1) == 1),
        3 => Ask::Unmark(id),
        4 => Ask::Exclusive(id, numbers.up_to(1) == 1),
        5 => Ask::Range(id),
        6 => Ask::Marks(HOWS[numbers.up_to(6) as usize], corners(numbers)),
        7 => Ask::Compare(id, numbers.up_to(9)),
        8 => Ask::Watch(id),
        _ => Ask::Unwatch(id),
    }
}

// So many commands, with a look at the whole text at the end.
fn script(alloc: Global, seed: u64, count: u32) -> Option<Vec<Ask>> {
    let mut numbers = Numbers::new(seed);
    let mut asks = Vec::new(alloc);
    for _ in 1..count {
        let ask = if numbers.up_to(1) == 0 {
            on_the_text(&mut numbers)
        } else {
            on_marks_and_watchers(&mut numbers)
        };
        asks.push(ask).ok()?;
    }
    asks.push(Ask::Text([0, 0, 99, 0], 1000)).ok()?;
    Some(asks)
}

// The place where the replies of the two differ first, after the number of commands where there is none.
fn differ_at(alloc: Global, seed: u64, count: u32) -> Option<usize> {
    let asks = script(alloc, seed, count)?;
    let left = played(alloc, "ab\r\nc\u{1f600}d\n", asks.as_slice(), count)?;
    let right = replayed(alloc, "ab\r\nc\u{1f600}d\n", asks.as_slice())?;
    match first_difference(left.as_slice(), right.as_slice()) {
        Some(place) => Some(place),
        None => Some(left.len().saturating_add(1)),
    }
}

#[test]
fn two_hundred_commands_are_answered_as_the_plain_machine_does(
    rt: HostRuntime,
) -> Result<(), Fail> {
    assert!(rt; differ_at(rt.alloc(), 1, 200) == Some(201));
    Ok(())
}

#[test]
fn long_runs_are_answered_as_the_plain_machine_does(rt: HostRuntime) -> Result<(), Fail> {
    for seed in [2, 3, 4] {
        assert!(rt; differ_at(rt.alloc(), seed, 2_000) == Some(2_001), "{seed}");
    }
    Ok(())
}
