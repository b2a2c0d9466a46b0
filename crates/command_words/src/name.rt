//! Words that name files.
ghost use Rattle.std.specs.Prelude.{◌≡◌, IfOk};

use std::alloc::{AllocError, Global};
use std::marker::Model;

/// A word that names a file. Contracts see its bytes in UTF-8.
#[derive(Debug, Drop)]
pub struct Name {
    string: String,
}

impl Model for Name {
    ghost use Rattle.std.specs.Prelude.{ℕ, List, string_bytes};

    ghost Value = { List ℕ };

    ghost view = { λ n. string_bytes n.string };
}

impl Name {
    /// A copy of a word.
    pub fn from_str(alloc: Global, word: &str) -> Result<Self, AllocError>
        ensures { IfOk result (λ n. n ≡ word.now) }
    {
        Ok(Name {
            string: String::from_str(alloc, word)?,
        })
    }

    /// The name, lent.
    pub fn as_str(&self) -> &str
        ensures { result.now ≡ self.now }
    {
        self.string.as_str()
    }
}
