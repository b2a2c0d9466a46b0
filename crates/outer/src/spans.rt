//! Lists of hits.
ghost use Rattle.std.specs.Prelude.{◌≡◌, [], ◌∷◌, ◌++◌, length, OnOk, OnErr};

use points::NoMemory;
use std::alloc::Global;
use std::marker::Model;

/// A list of hits in a text, each as the byte offsets of its start and its end in UTF-8.
#[derive(Debug, Drop)]
pub struct Spans {
    items: Vec<(usize, usize)>,
}

impl Model for Spans {
    ghost use Rattle.std.specs.Prelude.{ℕ, List};

    ghost Value = { List (ℕ × ℕ) };

    ghost view = { λ s. s.items.items };
}

impl Spans {
    /// No hits, over the allocator that later calls take memory from. It takes none itself.
    pub fn new(alloc: Global) -> Self
        ensures { result ≡ [] }
    {
        Spans {
            items: Vec::new(alloc),
        }
    }

    /// The hits, lent.
    pub fn as_slice(&self) -> &[(usize, usize)]
        ensures { result.now ≡ self.now }
    {
        self.items.as_slice()
    }

    /// Puts a hit at the end. A refusal leaves the list as it was.
    pub fn push(&mut self, start: usize, end: usize) -> Result<(), NoMemory>
        ensures ok { OnOk result (self.new ≡ self.old ++ (start, end) ∷ []) }
        ensures err { OnErr result (self.new ≡ self.old) }
    {
        self.items.push((start, end))?;
        Ok(())
    }
}
