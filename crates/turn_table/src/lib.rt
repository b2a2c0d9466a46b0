//! An object under a lock, and one history of the calls that were played on it.
//!
//! A table has two words and a slot: the lock, the tally of calls, and the object while nobody has it out. Sessions call
//! from desks, which have no bytes and can go to other threads. Each call waits for the lock, is played on the object,
//! and becomes the last entry of the history, which stands in the proofs alone. Every desk has seen a beginning of it
//! and has its own calls there. A hand is a seat with a number below 32, which a call under the lock can make.
//!
//! `Object` is what lies under the lock, `Turn` what its calls can do there, `TurnTable` has the calls.
#![tactic(auto)]

mod calls;
mod hold;
mod object;
mod open;
mod row;
mod rule;
mod table;
mod view;

pub use object::{Object, Turn};
pub use open::{MAX_DESKS, Tokens};
pub use row::{hand_row, lowest_free};
pub use table::TurnTable;
pub use view::{Dealer, Desk, DeskRole, Entry, HandRole, HandSeat, Holding, Part, Role, View};
