//! What a task asks.
use machine::Encoding;
use points::Range;

/// What is read of a snapshot.
#[derive(Drop)]
pub enum Read<M, K> {
    /// The number of UTF-16 units, and the extent of the text.
    Size,
    /// The number of units of the clipped range, and the first `limit` of them, one fewer where that would part a
    /// surrogate pair.
    Text { range: Range, limit: u32 },
    /// The number of hits of a literal, and the first `limit` of them. A surrogate that lacks its partner counts as U+FFFD.
    Find { needle: String, limit: u32 },
    /// The same for a pattern, by its matcher.
    Pattern { matcher: M, limit: u32 },
    /// The whole text, written to a sink in an encoding.
    Save { encoding: Encoding, sink: K },
}
