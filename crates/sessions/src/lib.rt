//! Sessions that share a buffer: the law of their transcript, and one session's run from its desk.
#![tactic(auto)]

mod holding;
pub mod laws;
mod plan;
mod reads;
mod refusal;
mod run;
mod seat;
mod seating;
mod session;

pub use holding::SpareHand;
pub use plan::Plan;
pub use refusal::RunRefusal;
pub use run::{Ran, run_sessions};
pub use session::run_session;
