//! What a watcher is.
ghost use Rattle.std.specs.Prelude.{◌≡◌, ℕ, ◌+◌, ◌-◌, ◌<◌, ◌^◌, List, [], ◌∷◌, ◌++◌, Option, option_map, OnSome};
ghost use Rattle.watch.specs.declared.watcher.Heard.{Heard};
ghost use Rattle.watch.specs.Heard.{heard_of};

use patch::Change;
use points::Point;

/// What is heard of a change: where it starts, and where it ends in the text before it and after it.
#[derive(Clone, Copy, Debug, PartialEq, Eq)]
pub struct Heard {
    pub start: Point,
    pub old_end: Point,
    pub new_end: Point,
}

/// Hears the changes of a text, one call for each.
pub trait Watcher: Send + Drop {
    ghost count_of: { Self → ℕ };

    ghost list_of: { Self → Option (List Heard) };

    /// A change was made. It is the next that is heard.
    fn changed(&mut self, change: &Change)
        requires { count_of self.old < 2 ^ 64 - 1 }
        ensures count { count_of self.new ≡ count_of self.old + 1 }
        ensures list { OnSome (list_of self.new) (list_of self.new ≡ option_map (λ heard. heard ++ heard_of change.now ∷ []) (list_of self.old)) };

    /// How many changes were heard.
    fn count(&self) -> u64
        ensures { result ≡ count_of self.now };
}
