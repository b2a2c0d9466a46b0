//! Commands as short plain values.
use machine::{Command, How, Text};
use points::{Point, Range};
use std::alloc::Global;

/// A start row, a start column, an end row and an end column.
pub type Corners = [u32; 4];

/// A command.
#[derive(Clone, Copy, Drop)]
pub enum Ask {
    Edit(Corners, &'static str),
    Text(Corners, u32),
    Undo,
    Redo,
    Mark(u32, Corners, bool),
    Unmark(u32),
    Exclusive(u32, bool),
    Range(u32),
    Marks(How, Corners),
    Compare(u32, u32),
    Watch(u32),
    Unwatch(u32),
    Squash,
}

/// The range between these corners. Where the end stands before the start, it is empty.
pub fn range(corners: Corners) -> Range {
    let [row, column, end_row, end_column] = corners;
    let start = Point { row, column };
    let end = Point {
        row: end_row,
        column: end_column,
    };
    if start <= end {
        Range::new(start, end)
    } else {
        Range::new(start, start)
    }
}

/// The command that is asked so.
pub fn command(alloc: Global, ask: Ask) -> Option<Command> {
    let command = match ask {
        Ask::Edit(corners, text) => Command::Edit {
            range: range(corners),
            text: Text::from_str(alloc, text).ok()?,
        },
        Ask::Text(corners, limit) => Command::Text {
            range: range(corners),
            limit,
        },
        Ask::Undo => Command::Undo,
        Ask::Redo => Command::Redo,
        Ask::Watch(id) => Command::Watch { id },
        Ask::Unwatch(id) => Command::Unwatch { id },
        Ask::Squash => Command::Squash,
        _ => return on_marks(ask),
    };
    Some(command)
}

// The command that asks of marks so.
fn on_marks(ask: Ask) -> Option<Command> {
    let command = match ask {
        Ask::Mark(id, corners, exclusive) => Command::Mark {
            id,
            range: range(corners),
            exclusive,
        },
        Ask::Unmark(id) => Command::Unmark { id },
        Ask::Exclusive(id, value) => Command::Exclusive { id, value },
        Ask::Range(id) => Command::Range { id },
        Ask::Marks(how, corners) => Command::Marks {
            how,
            range: range(corners),
        },
        Ask::Compare(a, b) => Command::Compare { a, b },
        _ => return None,
    };
    Some(command)
}
