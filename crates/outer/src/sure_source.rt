//! A source in memory that never fails: a caller of the trait is proved to answer no fault over it.
ghost use Rattle.std.specs.Prelude.{◌≡◌, ◌++◌, length, min, take, drop, Some, IsOkAnd};

use crate::failed::Failed;
use crate::remaining::Remaining;
use crate::source::Source;
use std::marker::Model;

/// A source over bytes in memory, which tells them and never fails: its count of faults is always 0.
///
/// Each call gives as many bytes as there are and fit.
#[derive(Debug, Drop)]
pub struct SureSource {
    left: Remaining,
}

impl Model for SureSource {
    ghost use Rattle.std.specs.Prelude.{ℕ, List};

    ghost Value = { List ℕ };

    ghost view = { λ s. s.left };
}

impl SureSource {
    /// A source of these bytes. It takes no memory.
    pub fn new(bytes: Vec<u8>) -> Self
        ensures { result ≡ bytes.items }
    {
        SureSource {
            left: Remaining::new(bytes),
        }
    }
}

impl Source for SureSource {
    ghost left = { λ s. Some s };

    ghost faults = { λ _. 0 };

    fn read(&mut self, into: &mut [u8]) -> Result<usize, Failed>
        ensures ok { IsOkAnd result (λ n. n ≡ min (length into.old) (length self.old)) }
        ensures into { IsOkAnd result (λ n. into.new ≡ take n self.old ++ drop n into.old) }
        ensures left { IsOkAnd result (λ n. self.new ≡ drop n self.old) }
    {
        Ok(self.left.give(into))
    }
}
