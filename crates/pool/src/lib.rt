//! Tasks that sessions send while workers run them in threads: each is done once.
//!
//! - A [`Session`] runs in a thread of its own, and sends its tasks through a [`Port`]. Where the queue is full, or there are
//!   no workers, the task is run at once by the session itself.
//! - A worker runs tasks of the queue in a thread of its own. The session that ends last tells the workers to end.
//! - What came of all tasks is put in the order of their sessions and numbers.
#![tactic(auto)]

mod kept;
mod noted;
mod order;
mod port;
mod session;
mod stage;
mod worker;

pub use port::Port;
pub use session::Session;
