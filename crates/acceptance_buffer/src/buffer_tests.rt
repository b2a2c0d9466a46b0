//! Worked examples: each call, where it was made, and what marks, steps and watchers become.
use crate::asked::{Ask, Corners};
use crate::played::played;
use crate::told::{Told, at, part, tell, told_of};
use machine::{CallRefusal, How, Reply};
use points::{MAX_STEPS, MAX_WATCHERS, MarkOrder};
use std::alloc::Global;
use std::test::Fail;

const NONE: [u64; 4] = [0, 0, 0, 0];

const START: Corners = [0, 0, 0, 0];

const WHOLE: Corners = [0, 0, 9, 9];

// Whether a buffer with this text, for which so many watchers are there, replies this.
fn replies(alloc: Global, text: &str, watchers: u32, asks: &[Ask], expected: &[Told<'_>]) -> bool {
    match played(alloc, text, asks, watchers) {
        Some(replies) => tell(replies.as_slice(), expected),
        None => false,
    }
}

#[test]
fn marks_on_hello(rt: HostRuntime) -> Result<(), Fail> {
    let asks = [
        Ask::Mark(1, [0, 1, 0, 3], false),
        Ask::Mark(1, [0, 1, 0, 3], false),
        Ask::Edit([0, 3, 0, 3], "X"),
        Ask::Range(1),
        Ask::Unmark(9),
        Ask::Marks(How::Intersecting, [0, 4, 0, 4]),
        Ask::Compare(1, 1),
    ];
    let expected = [
        Told::Numbered(1),
        Told::Refused(2, CallRefusal::MarkTaken),
        Told::Edited(3, part([3, 3, 4], [1, 0, 0, 0])),
        Told::Range(4, false, at(1), at(4)),
        Told::Refused(5, CallRefusal::MarkUnknown),
        Told::Marks(6, &[1]),
        Told::Order(7, MarkOrder::Same),
    ];
    assert!(rt; replies(rt.alloc(), "hello", 0, &asks, &expected));
    Ok(())
}

#[test]
fn marks_are_turned_and_taken_out(rt: HostRuntime) -> Result<(), Fail> {
    let asks = [
        Ask::Mark(4, [0, 3, 0, 9], false),
        Ask::Mark(2, [0, 1, 0, 3], false),
        Ask::Compare(4, 2),
        Ask::Exclusive(2, true),
        Ask::Edit([0, 3, 0, 3], "X"),
        Ask::Range(2),
        Ask::Marks(How::EndingAt, [0, 3, 0, 9]),
        Ask::Unmark(2),
        Ask::Exclusive(2, true),
        Ask::Compare(4, 2),
    ];
    let expected = [
        Told::Numbered(1),
        Told::Numbered(2),
        Told::Order(3, MarkOrder::After),
        Told::Numbered(4),
        Told::Edited(5, part([3, 3, 4], [2, 0, 0, 0])),
        Told::Range(6, true, at(1), at(3)),
        Told::Marks(7, &[2]),
        Told::Numbered(8),
        Told::Refused(9, CallRefusal::MarkUnknown),
        Told::Refused(10, CallRefusal::MarkUnknown),
    ];
    assert!(rt; replies(rt.alloc(), "hello", 0, &asks, &expected));
    Ok(())
}

#[test]
fn an_insertion_is_taken_back_and_made_again(rt: HostRuntime) -> Result<(), Fail> {
    let asks = [
        Ask::Edit([0, 1, 0, 1], "x"),
        Ask::Undo,
        Ask::Redo,
        Ask::Redo,
        Ask::Squash,
        Ask::Text(WHOLE, 100),
    ];
    let expected = [
        Told::Edited(1, part([1, 1, 2], NONE)),
        Told::Edited(2, part([1, 2, 1], NONE)),
        Told::Edited(3, part([1, 1, 2], NONE)),
        Told::Refused(4, CallRefusal::Nothing),
        Told::Nothing,
        Told::Text(5, "axb", 3),
    ];
    assert!(rt; replies(rt.alloc(), "ab", 0, &asks, &expected));
    Ok(())
}

#[test]
fn undo_of_a_carriage_return_before_a_line_feed(rt: HostRuntime) -> Result<(), Fail> {
    let asks = [
        Ask::Edit(START, "\r"),
        Ask::Undo,
        Ask::Text(WHOLE, 9),
        Ask::Redo,
        Ask::Text(WHOLE, 9),
    ];
    let expected = [
        Told::Edited(1, part([0, 0, 1], NONE)),
        Told::Edited(2, part([0, 1, 0], NONE)),
        Told::Text(3, "\n", 1),
        Told::Edited(4, part([0, 0, 1], NONE)),
        Told::Text(5, "\r\n", 2),
    ];
    assert!(rt; replies(rt.alloc(), "\n", 0, &asks, &expected));
    Ok(())
}

#[test]
fn six_marks_around_an_insertion(rt: HostRuntime) -> Result<(), Fail> {
    let asks = [
        Ask::Mark(1, [0, 2, 0, 2], false),
        Ask::Mark(2, [0, 2, 0, 2], true),
        Ask::Mark(3, [0, 2, 0, 4], false),
        Ask::Mark(4, [0, 2, 0, 4], true),
        Ask::Mark(5, [0, 0, 0, 2], false),
        Ask::Mark(6, [0, 0, 0, 2], true),
        Ask::Edit([0, 2, 0, 2], "bbb"),
        Ask::Range(1),
        Ask::Range(2),
        Ask::Range(3),
        Ask::Range(4),
        Ask::Range(5),
        Ask::Range(6),
        Ask::Undo,
        Ask::Marks(How::StartingAt, [0, 2, 0, 2]),
    ];
    let expected = [
        Told::Numbered(1),
        Told::Numbered(2),
        Told::Numbered(3),
        Told::Numbered(4),
        Told::Numbered(5),
        Told::Numbered(6),
        Told::Edited(7, part([2, 2, 5], [6, 0, 0, 0])),
        Told::Range(8, false, at(2), at(5)),
        Told::Range(9, true, at(5), at(5)),
        Told::Range(10, false, at(2), at(7)),
        Told::Range(11, true, at(5), at(7)),
        Told::Range(12, false, at(0), at(5)),
        Told::Range(13, true, at(0), at(2)),
        Told::Edited(14, part([2, 5, 2], [6, 3, 0, 0])),
        Told::Marks(15, &[1, 2, 3, 4]),
    ];
    assert!(rt; replies(rt.alloc(), "aaaa", 0, &asks, &expected));
    Ok(())
}

#[test]
fn a_watcher_hears_each_change_once(rt: HostRuntime) -> Result<(), Fail> {
    let asks = [
        Ask::Watch(7),
        Ask::Watch(7),
        Ask::Edit(START, "x"),
        Ask::Edit(START, ""),
        Ask::Undo,
        Ask::Unwatch(7),
        Ask::Unwatch(7),
    ];
    let expected = [
        Told::Numbered(1),
        Told::Refused(2, CallRefusal::WatchTaken),
        Told::Edited(3, part([0, 0, 1], NONE)),
        Told::Edited(4, part([0, 0, 0], NONE)),
        Told::Edited(5, part([0, 1, 0], NONE)),
        Told::Heard(6, 2),
        Told::Refused(7, CallRefusal::WatchUnknown),
    ];
    assert!(rt; replies(rt.alloc(), "ab", 2, &asks, &expected));
    Ok(())
}

// Watchers with the ids from 0 on, and a change behind the first.
fn asks_for_watchers(alloc: Global, count: u32) -> Option<Vec<Ask>> {
    let mut asks = Vec::new(alloc);
    for id in 0..count {
        asks.push(Ask::Watch(id)).ok()?;
        if id == 0 {
            asks.push(Ask::Edit(START, "x")).ok()?;
        }
    }
    asks.push(Ask::Edit(START, "y")).ok()?;
    asks.push(Ask::Unwatch(0)).ok()?;
    asks.push(Ask::Unwatch(63)).ok()?;
    Some(asks)
}

// What is replied to watchers with the ids from 0 on, as many as can be attached and one more.
fn replies_to_watchers(alloc: Global) -> Option<Vec<Reply>> {
    let count = MAX_WATCHERS as u32 + 1;
    let asks = asks_for_watchers(alloc, count)?;
    played(alloc, "", asks.as_slice(), count)
}

fn tells_at(replies: &[Reply], place: usize, expected: Told<'_>) -> bool {
    match replies.get(place) {
        Some(reply) => told_of(reply) == Some(expected),
        None => false,
    }
}

#[test]
fn one_watcher_too_many_is_refused(rt: HostRuntime) -> Result<(), Fail> {
    let replies = replies_to_watchers(rt.alloc()).ok_or("none")?;
    let replies = replies.as_slice();
    assert!(rt; replies.len() == 69);
    assert!(rt; tells_at(replies, 64, Told::Numbered(65)));
    assert!(rt; tells_at(replies, 65, Told::Refused(66, CallRefusal::WatchFull)));
    assert!(rt;
        tells_at(replies, 67, Told::Heard(68, 2)) && tells_at(replies, 68, Told::Heard(69, 1))
    );
    Ok(())
}

// As many insertions as there can be steps and one more, as many undos, and a look.
fn asks_past_the_steps(alloc: Global) -> Option<Vec<Ask>> {
    let mut asks = Vec::new(alloc);
    for _ in 0..MAX_STEPS + 1 {
        asks.push(Ask::Edit(START, "x")).ok()?;
    }
    for _ in 0..MAX_STEPS + 1 {
        asks.push(Ask::Undo).ok()?;
    }
    asks.push(Ask::Text(WHOLE, 9)).ok()?;
    Some(asks)
}

fn replies_past_the_steps(alloc: Global) -> Option<Vec<Reply>> {
    let asks = asks_past_the_steps(alloc)?;
    played(alloc, "", asks.as_slice(), 0)
}

#[test]
fn undo_forgets_the_oldest_step(rt: HostRuntime) -> Result<(), Fail> {
    let replies = replies_past_the_steps(rt.alloc()).ok_or("none")?;
    let replies = replies.as_slice();
    assert!(rt; replies.len() == 2003);
    assert!(rt; tells_at(replies, 1000, Told::Edited(1001, part([0, 0, 1], NONE))));
    assert!(rt; tells_at(replies, 2000, Told::Edited(2001, part([0, 1, 0], NONE))));
    assert!(rt; tells_at(replies, 2001, Told::Refused(2002, CallRefusal::Nothing)));
    assert!(rt; tells_at(replies, 2002, Told::Text(2003, "x", 1)));
    Ok(())
}
