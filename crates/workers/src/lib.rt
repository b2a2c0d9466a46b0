//! Tasks for background workers: a snapshot with what is to be read of it, answered once.
//!
//! A [`Task`] holds a snapshot and its reads. [`run_task`] answers them on the snapshot's text, gives the snapshot up, and
//! makes a [`Done`] of it, in which contracts still see the task.
#![tactic(auto)]

mod done;
mod task;

pub use answers::{Answer, Read};
pub use done::Done;
pub use task::{Sent, Task, run_task};
