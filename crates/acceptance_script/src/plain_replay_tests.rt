//! The plain machine as running code: one session row by row. Each call stands behind a helper that says nothing of what
//! it does, so that the tests stay cheap to prove.
ghost use Rattle.std.specs.Prelude.{IsSome};
ghost use Rattle.machine.specs.Answers.{call_of};

use machine::{CallRefusal, Command, HitNumbers, How, Reply, ReplyPart, Text};
use plain_replay::Plain;
use points::{MAX_UNITS, MarkOrder, Point, Range, Units};
use std::alloc::Global;
use std::test::Fail;

// A change on the first row: where it starts, where it ends before it and after it, and the marks that it hits.
type Row = ([u32; 3], [u64; 4]);

fn at(column: u32) -> Point {
    Point { row: 0, column }
}

// The range of the first row between two columns in order.
fn columns(from: u32, to: u32) -> Range {
    let start = at(from);
    let end = at(to);
    if start <= end {
        Range::new(start, end)
    } else {
        Range::new(end, end)
    }
}

// The plain machine over a text that isn't too long.
fn started(alloc: Global, text: &str) -> Option<Plain> {
    let units = Units::from_str(alloc, text).ok()?;
    if units.len() > MAX_UNITS {
        return None;
    }
    Plain::start(alloc, text).ok()
}

// The reply to a command.
fn answer(plain: &mut Plain, command: &Command) -> Option<Reply>
    requires { IsSome (call_of command.now) }
{
    if plain.count() < 10_000 {
        plain.step(command).ok()
    } else {
        None
    }
}

// What is said of a change in a reply.
fn part(row: Row) -> ReplyPart {
    let ([from, to, end], [touch, inside, overlap, surround]) = row;
    ReplyPart {
        end: at(end),
        from: at(from),
        hits: HitNumbers {
            touch,
            inside,
            overlap,
            surround,
        },
        to: at(to),
    }
}

// Whether an edit of the units from one column up to another answers this.
fn edits(plain: &mut Plain, alloc: Global, text: &str, row: Row) -> bool {
    let range = columns(row.0[0], row.0[1]);
    let Ok(text) = Text::from_str(alloc, text) else {
        return false;
    };
    match answer(plain, &Command::Edit { range, text }) {
        Some(
            Reply::Edited {
                at: _,
                end,
                from,
                hits,
                to,
            },
        ) => {
            let told = ReplyPart {
                end,
                from,
                hits,
                to,
            };
            told == part(row)
        }
        _ => false,
    }
}

// Whether a reply has one part, this one.
fn is_part(reply: Option<Reply>, row: Row) -> bool {
    match reply {
        Some(Reply::Batched { at: _, edits }) => {
            let edits = edits.as_slice();
            edits.len() == 1 && edits[0] == part(row)
        }
        _ => false,
    }
}

fn is_refused(reply: Option<Reply>, why: CallRefusal) -> bool {
    match reply {
        Some(Reply::Refused { at: _, no }) => no == why,
        _ => false,
    }
}

fn is_done(reply: Option<Reply>) -> bool {
    matches!(reply, Some(Reply::Numbered { at: _ }))
}

fn mark(plain: &mut Plain, id: u32, from: u32, to: u32, exclusive: bool) -> Option<Reply> {
    let range = columns(from, to);
    answer(
        plain,
        &Command::Mark {
            id,
            range,
            exclusive,
        },
    )
}

// Whether the mark stands between these columns.
fn is_at(plain: &mut Plain, id: u32, from: u32, to: u32) -> bool {
    match answer(plain, &Command::Range { id }) {
        Some(
            Reply::Range {
                at: _,
                exclusive: _,
                range,
            },
        ) => range.start == at(from) && range.end == at(to),
        _ => false,
    }
}

// Whether one mark touches the column, the one of this id.
fn finds(plain: &mut Plain, column: u32, id: u32) -> bool {
    let how = How::Intersecting;
    let range = columns(column, column);
    match answer(plain, &Command::Marks { how, range }) {
        Some(Reply::Marks { at: _, ids }) => {
            let ids = ids.as_slice();
            ids.len() == 1 && ids[0] == id
        }
        _ => false,
    }
}

fn is_same(plain: &mut Plain, id: u32) -> bool {
    match answer(plain, &Command::Compare { a: id, b: id }) {
        Some(Reply::Order { at: _, order }) => order == MarkOrder::Same,
        _ => false,
    }
}

fn heard(plain: &mut Plain, id: u32) -> Option<u64> {
    match answer(plain, &Command::Unwatch { id }) {
        Some(Reply::Heard { at: _, heard }) => Some(heard),
        _ => None,
    }
}

// Whether the text has these units.
fn reads(plain: &Plain, units: &[u16]) -> bool {
    plain.text() == units
}

fn cannot_mark(plain: &mut Plain, id: u32, from: u32, to: u32) -> bool {
    is_refused(mark(plain, id, from, to, false), CallRefusal::MarkTaken)
}

fn cannot_unmark(plain: &mut Plain, id: u32) -> bool {
    is_refused(
        answer(plain, &Command::Unmark { id }),
        CallRefusal::MarkUnknown,
    )
}

// Whether a mark is taken, moves with an edit and is found, and calls that are refused are counted too.
fn marks_hello(plain: &mut Plain, alloc: Global) -> bool {
    is_done(mark(plain, 1, 1, 3, false))
        && cannot_mark(plain, 1, 1, 3)
        && edits(plain, alloc, "X", ([3, 3, 4], [1, 0, 0, 0]))
        && is_at(plain, 1, 1, 4)
        && finds(plain, 4, 1)
        && is_same(plain, 1)
        && cannot_unmark(plain, 9)
        && plain.count() == 7
}

#[test]
fn marks_on_hello(rt: HostRuntime) -> Result<(), Fail> {
    let mut plain = started(rt.alloc(), "hello").ok_or("none")?;
    assert!(rt; marks_hello(&mut plain, rt.alloc()));
    Ok(())
}

fn puts_marks(plain: &mut Plain, rows: &[(u32, u32, u32, bool)]) -> bool {
    for (id, from, to, exclusive) in rows {
        if !is_done(mark(plain, *id, *from, *to, *exclusive)) {
            return false;
        }
    }
    true
}

fn has_marks(plain: &mut Plain, rows: &[(u32, u32, u32)]) -> bool {
    for (id, from, to) in rows {
        if !is_at(plain, *id, *from, *to) {
            return false;
        }
    }
    true
}

#[test]
fn six_marks_around_an_insertion(rt: HostRuntime) -> Result<(), Fail> {
    let mut plain = started(rt.alloc(), "aaaa").ok_or("none")?;
    let before = [
        (1, 2, 2, false),
        (2, 2, 2, true),
        (3, 2, 4, false),
        (4, 2, 4, true),
        (5, 0, 2, false),
        (6, 0, 2, true),
    ];
    assert!(rt; puts_marks(&mut plain, &before));
    assert!(rt; edits(&mut plain, rt.alloc(), "bbb", ([2, 2, 5], [6, 0, 0, 0])));
    let after = [
        (1, 2, 5),
        (2, 5, 5),
        (3, 2, 7),
        (4, 5, 7),
        (5, 0, 5),
        (6, 0, 2),
    ];
    assert!(rt; has_marks(&mut plain, &after));
    Ok(())
}

// Whether an undo answers this, and leaves these units.
fn undoes(plain: &mut Plain, row: Row, units: &[u16]) -> bool {
    is_part(answer(plain, &Command::Undo), row) && reads(plain, units)
}

fn redoes(plain: &mut Plain, row: Row, units: &[u16]) -> bool {
    is_part(answer(plain, &Command::Redo), row) && reads(plain, units)
}

fn cannot_undo(plain: &mut Plain) -> bool {
    is_refused(answer(plain, &Command::Undo), CallRefusal::Nothing)
}

fn parts_and_joins(plain: &mut Plain, alloc: Global) -> bool {
    edits(plain, alloc, "\r", ([0, 0, 1], [0, 0, 0, 0]))
        && reads(plain, &[13, 10])
        && undoes(plain, ([0, 1, 0], [0, 0, 0, 0]), &[10])
        && cannot_undo(plain)
        && redoes(plain, ([0, 0, 1], [0, 0, 0, 0]), &[13, 10])
}

#[test]
fn undo_of_a_carriage_return_before_a_line_feed(rt: HostRuntime) -> Result<(), Fail> {
    let mut plain = started(rt.alloc(), "\n").ok_or("none")?;
    assert!(rt; parts_and_joins(&mut plain, rt.alloc()));
    Ok(())
}

fn watches(plain: &mut Plain, id: u32) -> bool {
    is_done(answer(plain, &Command::Watch { id }))
}

fn cannot_watch(plain: &mut Plain, id: u32) -> bool {
    is_refused(
        answer(plain, &Command::Watch { id }),
        CallRefusal::WatchTaken,
    )
}

fn cannot_unwatch(plain: &mut Plain, id: u32) -> bool {
    is_refused(
        answer(plain, &Command::Unwatch { id }),
        CallRefusal::WatchUnknown,
    )
}

fn hears_changes(plain: &mut Plain, alloc: Global) -> bool {
    watches(plain, 7)
        && cannot_watch(plain, 7)
        && edits(plain, alloc, "x", ([0, 0, 1], [0, 0, 0, 0]))
        && edits(plain, alloc, "", ([0, 0, 0], [0, 0, 0, 0]))
        && is_part(answer(plain, &Command::Undo), ([0, 1, 0], [0, 0, 0, 0]))
        && heard(plain, 7) == Some(2)
        && cannot_unwatch(plain, 7)
}

#[test]
fn a_watcher_hears_each_change_once(rt: HostRuntime) -> Result<(), Fail> {
    let mut plain = started(rt.alloc(), "ab").ok_or("none")?;
    assert!(rt; hears_changes(&mut plain, rt.alloc()));
    Ok(())
}
