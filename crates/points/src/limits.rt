//! The limits of the crates, each once. No limit stands for another, also where two are equal now.

/// The most UTF-16 units that a text may have: 2^24.
pub const MAX_UNITS: usize = 1 << 24;

/// The greatest row or column of a point that these crates make: 2^30.
pub const MAX_COORD: u32 = 1 << 30;

/// The most changes that a patch may have: 2^24.
pub const MAX_CHANGES: usize = 1 << 24;

/// The most nodes that a tree may have: 2^24.
pub const MAX_NODES: usize = 1 << 24;

/// The most marks that one index may hold.
pub const MAX_MARKS: usize = 1_000_000;

/// The most steps that undo keeps, and the most that redo keeps.
pub const MAX_STEPS: usize = 1_000;

/// The most watchers at a time.
pub const MAX_WATCHERS: usize = 64;

/// The most hands at a time: each holds one snapshot.
pub const MAX_HANDS: usize = 32;

/// The last number that a call may have: 2^63 - 1. Numbers begin at 1 and rise by one.
pub const LAST: u64 = (1 << 63) - 1;
