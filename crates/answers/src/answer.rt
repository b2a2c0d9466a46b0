//! What is answered.
use points::{Point, Units};
use search::Found;

/// What was answered to one read.
#[derive(Drop)]
pub enum Answer<K> {
    /// The number of UTF-16 units, and the extent of the text.
    Size { units: u64, extent: Point },
    /// The number of units of the range, and the first of them.
    Text { units: u64, text: Units },
    /// What a search found.
    Found(Found),
    /// How many bytes were written, and the sink that took them.
    Saved { bytes: u64, sink: K },
    /// The sink had a fault.
    SaveFailed { sink: K },
    /// There was no memory for it.
    NoMemory,
}
