/// How many places a table has.
pub const PLACES: usize = 272;

/// The most places of a chain.
pub const MAX_DEPTH: u32 = 8;

/// What stands at one place.
#[derive(Debug, Drop)]
pub struct Placed<X> {
    /// The place's number.
    pub place: u32,
    /// Greater than the age of everything that was put in before.
    pub age: u64,
    /// The place that it stands on.
    pub parent: Option<u32>,
    /// How many places its chain has.
    pub depth: u32,
    /// The hands on it, one bit each.
    pub mask: u64,
    /// What is held there.
    pub held: X,
}

/// Which top a table had: two tops of one table never have the same age.
#[derive(Clone, Copy, Debug, PartialEq, Eq)]
pub struct TopId {
    pub place: u32,
    pub age: u64,
    pub depth: u32,
}
