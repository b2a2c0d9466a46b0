//! Line feeds, carriage returns, and how a row ends.
/// The unit that ends a row.
pub(crate) const LINE_FEED: u16 = 10;

/// The unit that belongs to a row's ending where it stands directly before a line feed.
pub(crate) const CARRIAGE_RETURN: u16 = 13;

/// How a row ends.
#[derive(Clone, Copy, Debug, PartialEq, Eq, Hash)]
pub enum Ending {
    /// With a line feed.
    Lf,
    /// With a carriage return and a line feed.
    CrLf,
    /// With the text: it is the last row.
    Last,
}
