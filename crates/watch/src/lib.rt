//! Watchers of a text: boxed objects of the caller that hear every change once. All watchers of a text are of one type.
#![tactic(auto)]

mod list_watcher;
mod refusal;
mod seat;
mod watcher;
mod watchers;

pub use list_watcher::ListWatcher;
pub use refusal::{WatchBack, WatchUnknown};
pub use seat::{Log, Seat};
pub use watcher::{Heard, Watcher};
pub use watchers::Watchers;
