//! Patches: what changed between an old text and a new one, whatever edits led there.
//!
//! A patch is a list of changes, sorted and never touching, each with its range and its text on
//! both sides. It holds no text but those of its changes, so it stands for the same edits on every
//! text that it fits. Points count rows and UTF-16 units, from 0.
#![tactic(auto)]

mod absorb;
mod change;
mod check;
mod copies;
mod joint;
pub mod laws;
mod lookup;
mod old_text;
mod patch;
mod refusal;
mod splice;
mod stretch;

pub use change::{Change, ChangeView, Changes, Run};
pub use patch::Patch;
pub use points::MAX_CHANGES;
pub use refusal::{ListRefusal, PatchRefusal};
pub use stretch::Stretch;
