use crate::reply::Span;
use crate::sequence::Sequence;
use crate::text::Text;
use points::{Point, Range};

/// How the characters of a text are written as bytes.
#[derive(Clone, Copy, Debug, PartialEq, Eq)]
pub enum Encoding {
    /// UTF-8.
    Utf8,
    /// UTF-16, the low byte of each unit first.
    Utf16Le,
    /// UTF-16, the high byte of each unit first.
    Utf16Be,
    /// ISO 8859-1: one byte a character, `?` for one above U+00FF.
    Latin1,
}

/// What is read of a snapshot.
#[derive(Debug, Drop)]
pub enum Read {
    /// The extent of the text, and its number of UTF-16 units.
    Size,
    /// The first `limit` UTF-16 units of the clipped range.
    Text { range: Range, limit: u32 },
    /// Where the needle stands: the number of its hits, and the first `limit` of them.
    Find { needle: Text, limit: u32 },
    /// Where the pattern matches, in the same form.
    Pattern { pattern: Text, limit: u32 },
    /// Writes the text to a file in an encoding.
    Save { name: Text, encoding: Encoding },
}

/// What was answered to one read.
#[derive(Debug, Drop)]
pub enum ReadAnswer {
    /// The extent of the text, and its number of UTF-16 units.
    Size { extent: Point, units: u64 },
    /// A text shown, and the number of UTF-16 units of the whole range.
    Text { text: Text, units: u64 },
    /// The number of all hits, and the first of them. Its hits are plain points, in any order.
    Found { count: u64, hits: Sequence<Span> },
    /// How many bytes were written.
    Saved { bytes: u64 },
}
