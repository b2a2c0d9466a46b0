//! A buffer that many sessions share: each call is made at one moment of one history, and answers what the plain machine
//! answers there.
//!
//! `PlainBuffer` is what can be shared: a buffer of one thread that follows the plain machine. `Held` lays it under the
//! lock of a `TurnTable`, with the row of hands. `SharedBuffer` has the calls. What each caller knows stands in its desk:
//! the beginning of the history that it has seen, and its own calls there.
#![tactic(auto)]

mod call;
mod held;
mod plain;
mod shared;
mod snapshot;
mod told;

pub use call::{Call, Numbered, Reply, TakenText};
pub use held::Held;
pub use plain::PlainBuffer;
pub use shared::{Desk, Finished, Hand, HandRefusal, Refusal, SharedBuffer, Squash, Started};
pub use snapshot::Snapshot;
pub use told::{Shown, Told};
