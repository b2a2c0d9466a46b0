//! What contracts on marks speak of: a mark, a splice of the text below it, how many marks a splice
//! hits, and the order of marks.
use crate::point::Point;

/// A range of a text with an id, which stays right while the text changes. Text that is inserted at
/// an end of it becomes a part of it, unless it is exclusive.
#[derive(Clone, Copy, Debug, PartialEq, Eq)]
pub struct Mark {
    pub id: u32,
    pub start: Point,
    pub end: Point,
    pub exclusive: bool,
}

/// One replacement in a text: what stood from `start` up to `old_end` gives way to a text that ends
/// at `new_end`.
#[derive(Clone, Copy, Debug, PartialEq, Eq)]
pub struct Splice {
    pub start: Point,
    pub old_end: Point,
    pub new_end: Point,
}

/// How many marks a splice hits, in each of the four senses.
#[derive(Clone, Copy, Debug, Default, PartialEq, Eq)]
pub struct HitCounts {
    /// Marks that have a point in common with the replaced text.
    pub touch: u32,
    /// Marks that end behind its start and start before its end.
    pub inside: u32,
    /// Marks with a boundary strictly within it.
    pub overlap: u32,
    /// Marks that lie strictly within it.
    pub surround: u32,
}

/// How one mark stands to another: by start, then the greater end first, then the lesser id.
#[derive(Clone, Copy, Debug, PartialEq, Eq)]
pub enum MarkOrder {
    /// The first mark comes first.
    Before,
    /// They are one mark.
    Same,
    /// The second mark comes first.
    After,
}
