use crate::reads::{Encoding, Read};
use crate::sequence::Sequence;
use crate::text::Text;
use points::Range;

/// Which marks a `marks` command asks for.
#[derive(Clone, Copy, Debug, PartialEq, Eq)]
pub enum How {
    /// Those that have a point in common with the range.
    Intersecting,
    /// Those that contain the range.
    Containing,
    /// Those that the range contains.
    ContainedIn,
    /// Those that start in the range.
    StartingIn,
    /// Those that start at the range's start.
    StartingAt,
    /// Those that end in the range.
    EndingIn,
    /// Those that end at the range's start.
    EndingAt,
}

/// One edit of a batch: the clipped range is replaced by the text.
#[derive(Debug, Drop)]
pub struct BatchEdit {
    pub range: Range,
    pub text: Text,
}

/// One command of a session. The first thirteen are calls, each with a number of its own.
#[derive(Debug, Drop)]
pub enum Command {
    /// Replaces the clipped range by the text.
    Edit {
        range: Range,
        text: Text,
    },
    /// Edits several ranges in turn, under one number and as one step of undo. Only scripts of version 2 have it.
    Batch {
        edits: Sequence<BatchEdit>,
    },
    /// Takes the last step back.
    Undo,
    /// Makes the step again that was taken back last.
    Redo,
    /// Shows the first `limit` UTF-16 units of the clipped range.
    Text {
        range: Range,
        limit: u32,
    },
    /// Marks the clipped range.
    Mark {
        id: u32,
        range: Range,
        exclusive: bool,
    },
    /// Removes a mark.
    Unmark {
        id: u32,
    },
    /// Makes a mark exclusive (`value` is true) or inclusive.
    Exclusive {
        id: u32,
        value: bool,
    },
    /// Shows where a mark is.
    Range {
        id: u32,
    },
    /// Shows the ids of the marks that stand to the range as `how` says. The range isn't clipped.
    Marks {
        how: How,
        range: Range,
    },
    /// Shows how two marks stand to each other.
    Compare {
        a: u32,
        b: u32,
    },
    /// Attaches a watcher, which is told of each change from then on.
    Watch {
        id: u32,
    },
    /// Detaches a watcher.
    Unwatch {
        id: u32,
    },
    /// Takes a snapshot of the text under a number of the session's own.
    Take {
        snapshot: u32,
    },
    /// Reads a snapshot in the session.
    Read {
        snapshot: u32,
        reads: Sequence<Read>,
    },
    /// Sends a snapshot with its reads to the workers, and ends its number.
    Send {
        snapshot: u32,
        reads: Sequence<Read>,
    },
    /// Ends the number of a snapshot.
    Release {
        snapshot: u32,
    },
    /// Squashes the layers of the text.
    Squash,
}

/// The text that a script opens with.
#[derive(Debug, Drop)]
pub enum Opening {
    /// The text itself.
    Text { text: Text },
    /// The text of a file, in an encoding.
    File { name: Text, encoding: Encoding },
}

/// A script: the opening text, and a list of commands for each session.
#[derive(Debug, Drop)]
pub struct Script {
    /// 1, or 2 where the script may have batches.
    pub version: u32,
    pub opening: Opening,
    pub sessions: Sequence<Sequence<Command>>,
}
