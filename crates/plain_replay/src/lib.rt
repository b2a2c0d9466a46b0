//! The plain machine as slow running code: one vector of units, one of marks, and lists of changes, over which every
//! call walks. It says what a text, its marks, its steps back and its watchers have to answer, so it is what faster
//! code is compared with, and it shares no structure with that code.
#![tactic(auto)]

mod body;
mod calls;
mod change;
mod clip;
mod marks;
mod movement;
mod plain;
mod progress;
mod replies;
mod steps;
mod watchers;

pub use plain::Plain;
