//! A bounded queue by which threads hand items to one another. Whatever the schedule, each item that was put was taken or
//! is left in the queue, once.
//!
//! - Each thread has an [`Account`], which has no bytes. In contracts it shows what the thread put and what it took.
//! - [`Handover::open`] makes an account out of another, and [`Handover::settle`] puts two together. The account that all
//!   others were settled into shows the whole.
//! - A thread that finds the queue empty can wait, asleep, for the next item or for the end ([`Handover::wait`]).
#![tactic(auto)]

mod queue;
mod rule;

pub use queue::Handover;
pub use rule::{Account, Share};
