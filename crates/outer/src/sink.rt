//! Sinks: what takes bytes. A sink may tell the bytes that it took (`taken`), and may stop telling them; contracts then
//! say what a put appended, after a fault too.
ghost use Rattle.std.specs.Prelude.{◌≡◌, ℕ, ◌≤◌, List, Option, OnOk, OnErr};
ghost use Rattle.outer.specs.Count.{Rose};
ghost use Rattle.outer.specs.Sink.{Appends, AppendsPrefix};

use crate::failed::Failed;

/// Where bytes go: a file, standard output, a list in memory.
pub trait Sink {
    /// The bytes taken, where the sink tells them.
    ghost taken: { Self → Option (List ℕ) };

    /// How many faults there were. It never falls, and stands still at 2^64 - 1.
    ghost faults: { Self → ℕ };

    /// Takes all these bytes behind those that it took before. After `Failed` it took some from their front.
    fn put(&mut self, bytes: &[u8]) -> Result<(), Failed>
        ensures count { faults self.old ≤ faults self.new }
        ensures appends { OnOk result (Appends bytes.now (taken self.old) (taken self.new)) }

        ensures cause { OnErr result (Rose (faults self.old) (faults self.new)) }
        ensures failed { OnErr result (AppendsPrefix bytes.now (taken self.old) (taken self.new)) };

    /// Sends on what it still holds back of the bytes that it took.
    fn flush(&mut self) -> Result<(), Failed>
        ensures count { faults self.old ≤ faults self.new }
        ensures kept { taken self.new ≡ taken self.old }
        ensures cause { OnErr result (Rose (faults self.old) (faults self.new)) };
}
