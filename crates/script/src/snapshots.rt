//! The numbers of the snapshots that are live before a command.
ghost use Rattle.std.specs.Prelude.{◌≡◌, ◌==◌, [], ◌∷◌, ℕ, List, length, Some, IfOk};
ghost use Rattle.std.specs.List.{list_any};
ghost use Rattle.script.specs.Rules.{ended};

use std::alloc::{AllocError, Global};
use std::marker::Model;

/// Some numbers, the one that was taken last first. Contracts see the list of them.
#[derive(Drop)]
pub(crate) struct Live {
    numbers: Vec<u32>,
}

impl Model for Live {
    ghost Value = { List ℕ };

    ghost view = { λ live. live.numbers.items };
}

impl Live {
    /// None is live.
    pub(crate) fn none(alloc: Global) -> Live
        ensures { result ≡ [] }
    {
        Live {
            numbers: Vec::new(alloc),
        }
    }

    /// How many are live.
    pub(crate) fn count(&self) -> usize
        ensures { result ≡ length self.now }
    {
        self.numbers.len()
    }

    /// Whether this number is live.
    pub(crate) fn has(&self, number: u32) -> bool
        ensures { result ≡ list_any (λ m. m == number) self.now }
    {
        self.numbers.contains(&number)
    }

    /// Makes a number live.
    pub(crate) fn take(&mut self, number: u32) -> Result<(), AllocError>
        ensures { IfOk result (λ _. self.new ≡ number ∷ self.old) }
    {
        self.numbers.insert(0, number)?;
        Ok(())
    }

    /// Ends a number.
    pub(crate) fn end(&mut self, number: u32)
        ensures { self.new ≡ ended self.old (Some number) }
    {
        self.numbers.retain(|live| *live != number);
    }
}
