use crate::reads::ReadAnswer;
use crate::sequence::Sequence;
use crate::text::Text;
use points::{MarkOrder, Point};

/// Why a numbered call was refused. A refused call changes nothing but the count.
#[derive(Clone, Copy, Debug, PartialEq, Eq)]
pub enum CallRefusal {
    /// A text would have more units than a text may have.
    TooLong,
    /// There is no step to take back, or to make again.
    Nothing,
    /// There is a mark with this id.
    MarkTaken,
    /// There is no mark with this id.
    MarkUnknown,
    /// There are as many marks as there may be.
    MarksFull,
    /// There is a watcher with this id.
    WatchTaken,
    /// There are as many watchers as there may be.
    WatchFull,
    /// There is no watcher with this id.
    WatchUnknown,
}

/// How many marks an edit hits, in each of the four senses of `points::HitCounts`, as a transcript says it.
#[derive(Clone, Copy, Debug, Default, PartialEq, Eq)]
pub struct HitNumbers {
    pub touch: u64,
    pub inside: u64,
    pub overlap: u64,
    pub surround: u64,
}

/// Two points of a transcript, in any order.
#[derive(Clone, Copy, Debug, Default, PartialEq, Eq)]
pub struct Span {
    pub start: Point,
    pub end: Point,
}

/// What one edit of a batch did: the replaced range in the text before it, the end of the new text in the text
/// after it, and the marks that it hit.
#[derive(Clone, Copy, Debug, PartialEq, Eq)]
pub struct ReplyPart {
    pub end: Point,
    pub from: Point,
    pub hits: HitNumbers,
    pub to: Point,
}

/// What was answered to one command. `at` is the number of the call.
#[derive(Debug, Drop)]
pub enum Reply {
    /// An edit, as in `ReplyPart`. In version 1 also an undo and a redo.
    Edited {
        at: u64,
        end: Point,
        from: Point,
        hits: HitNumbers,
        to: Point,
    },
    /// A batch, and in version 2 an undo and a redo: what was done, in the order in which it was done.
    Batched {
        at: u64,
        edits: Sequence<ReplyPart>,
    },
    /// A text shown, and the number of UTF-16 units of the whole range.
    Text {
        at: u64,
        text: Text,
        units: u64,
    },
    /// A call that was done and tells no more.
    Numbered {
        at: u64,
    },
    /// Where a mark is, and whether it is exclusive.
    Range {
        at: u64,
        exclusive: bool,
        range: Span,
    },
    /// The ids of marks.
    Marks {
        at: u64,
        ids: Sequence<u32>,
    },
    /// How two marks stand to each other.
    Order {
        at: u64,
        order: MarkOrder,
    },
    /// How many changes a watcher was told.
    Heard {
        at: u64,
        heard: u64,
    },
    /// A refused call.
    Refused {
        at: u64,
        no: CallRefusal,
    },
    /// The version of the text that a snapshot was taken of.
    Taken {
        version: u64,
    },
    /// The answers to the reads of a snapshot, in their order.
    Answered {
        answers: Sequence<ReadAnswer>,
    },
    /// A command that tells nothing.
    Nothing,
}

/// The end of a run: how many calls were numbered, and the whole text.
#[derive(Debug, Drop)]
pub struct TranscriptEnd {
    pub count: u64,
    pub text: Text,
}

/// A transcript: the end of the run, and a list of replies for each session.
#[derive(Debug, Drop)]
pub struct Transcript {
    pub end: TranscriptEnd,
    pub sessions: Sequence<Sequence<Reply>>,
    /// The version of the script.
    pub version: u32,
}
