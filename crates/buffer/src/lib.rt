//! The buffer: a text with its marks, its steps back and its watchers. Contracts see the plain machine's state in it, and
//! each call does what the plain machine's step does.
//!
//! A call that wants memory takes all of it before anything changes.
#![tactic(auto)]

mod buffer;
mod change;
mod layered_text;
mod marks;
mod play;
mod snapshot;
mod snapshots;
mod text;
mod undo;
mod watch_calls;

pub use buffer::Buffer;
pub use layered_text::LayeredText;
pub use snapshot::Snapshot;
pub use snapshots::Snapshots;
