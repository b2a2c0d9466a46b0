//! Sources: what gives bytes. A source may tell the bytes that it has left (`left`); contracts then say which of them a
//! read gave, and that it is at its end exactly where none is left.
ghost use Rattle.std.specs.Prelude.{◌≡◌, ℕ, ◌<◌, ◌≤◌, List, length, take, Option, IfOk, OnErr};
ghost use Rattle.outer.specs.Count.{Rose};
ghost use Rattle.outer.specs.Source.{Gives, IsEndOf};

use crate::failed::Failed;

/// Where bytes come from: a file, standard input, a list in memory.
pub trait Source {
    /// The bytes left, where the source tells them.
    ghost left: { Self → Option (List ℕ) };

    /// How many faults there were. It never falls, and stands still at 2^64 - 1.
    ghost faults: { Self → ℕ };

    /// Reads the next bytes to the front of `into`, and answers how many there were: at least one,
    /// or none at the end. What stands in `into` behind them, and all of it after `Failed`, is open.
    fn read(&mut self, into: &mut [u8]) -> Result<usize, Failed>
        requires { 0 < length into.old }

        ensures count { faults self.old ≤ faults self.new }
        ensures within { IfOk result (λ n. n ≤ length into.new) }
        ensures gives { IfOk result (λ n. Gives (take n into.new) (left self.old) (left self.new)) }
        ensures end { IfOk result (λ n. IsEndOf (left self.old) n) }

        ensures cause { OnErr result (Rose (faults self.old) (faults self.new)) }
        ensures failed { OnErr result (left self.new ≡ left self.old) };
}
