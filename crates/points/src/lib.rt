//! Points of a text, ranges of points and lists of UTF-16 units: what every other crate speaks of.
//!
//! A text is a list of UTF-16 units. A row ends at a line feed (LF, 10) and at nothing else.
//! A point counts the rows before it, and the units since its row began. An extent is the point at
//! the end of a text, taken as the way that leads there. A distance is the same in 64 bits.
#![tactic(auto)]

mod distance;
mod hits;
pub mod laws;
mod limits;
mod mark;
mod memory;
mod point;
mod range;
mod units;
mod way;

pub use distance::Distance;
pub use hits::{Hits, Ids};
pub use limits::{
    LAST, MAX_CHANGES, MAX_COORD, MAX_HANDS, MAX_MARKS, MAX_NODES, MAX_STEPS, MAX_UNITS,
    MAX_WATCHERS,
};
pub use mark::{HitCounts, Mark, MarkOrder, Splice};
pub use memory::NoMemory;
pub use point::Point;
pub use range::Range;
pub use units::Units;
pub use way::{
    extent_capped, extent_of, has_extent, leads_near, leads_within, led_by, offset_of, traversal,
    traverse, traverse_capped, traverse_near,
};
