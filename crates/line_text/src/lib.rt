//! A text of UTF-16 units with rows and columns, seen by contracts as the list of its units.
//!
//! A row ends at a line feed (LF, 10) and at nothing else. Its ending is CR LF where a carriage
//! return (CR, 13) stands directly before the line feed; the last row has no ending.
//! Points are clipped to the text before it is edited: outside line endings and surrogate pairs.
#![tactic(auto)]

mod edit;
mod encode;
mod ending;
mod lookup;
mod parts;
mod put;
mod refusal;
mod rows;
mod text;

pub use edit::Replaced;
pub use ending::Ending;
pub use parts::TextPart;
pub use refusal::TextRefusal;
pub use rows::splits_pair;
pub use text::LineText;
