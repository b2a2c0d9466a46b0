//! The takes of a transcript, and the answers through them.
//!
//! - The takes are gathered in script order (`takes`), and linked by the versions that they show (`linked`).
//! - The answers through those that show a version are judged by its text (`versions`, `judge`).
//! - Whether a take shows a version that it can show is seen from the versions behind the calls (`doubt`).
//! - Two replies, or two answers, are compared member by member (`same`).
#![tactic(auto)]

mod doubt;
mod judge;
mod linked;
mod numbers;
mod same;
mod take;
mod takes;
mod versions;

pub use doubt::first_doubt;
pub use linked::{Linked, linked_takes};
pub use numbers::{lesser, number_of};
pub use same::{same_answer, same_reply, same_text};
pub use take::Take;
pub use takes::all_takes;
pub use versions::judge_all;
