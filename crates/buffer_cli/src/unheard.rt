//! Whether watchers are as a run wants them.
ghost use Rattle.std.specs.Prelude.{◌≡◌, true};
ghost use Rattle.std.specs.List.{AllByRecursion};
ghost use Rattle.watch.specs.Listed.{heard_count};

use watch::{ListWatcher, Watcher};

/// Whether none of these watchers has heard a change yet.
pub(crate) fn are_unheard(watchers: &[Box<ListWatcher>]) -> bool
    ensures { result ≡ true → AllByRecursion (λ w. heard_count w.value ≡ 0) watchers.now }
{
    for watcher in watchers {
        if !is_unheard(watcher) {
            return false;
        }
    }
    true
}

// Whether a watcher has heard no change yet.
fn is_unheard(watcher: &Box<ListWatcher>) -> bool
    ensures { result ≡ true → heard_count watcher.now.value ≡ 0 }
{
    watcher.count() == 0
}
