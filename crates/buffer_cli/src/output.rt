//! Writing a result: all its bytes, and then a flush.
ghost use Rattle.std.specs.Prelude.{◌≡◌, ◌≤◌, OnOk, OnErr};
ghost use Rattle.outer.specs.Count.{Rose};
ghost use Rattle.outer.specs.Sink.{Appends, AppendsPrefix};

use outer::{Failed, Sink};

/// Writes all these bytes and sends them on.
pub(crate) fn write_all<O: Sink>(output: &mut O, bytes: &[u8]) -> Result<(), Failed>
    ensures count { O.faults output.old ≤ O.faults output.new }
    ensures written { OnOk result (Appends bytes.now (O.taken output.old) (O.taken output.new)) }
    ensures cause { OnErr result (Rose (O.faults output.old) (O.faults output.new)) }
    ensures prefix { OnErr result (AppendsPrefix bytes.now (O.taken output.old) (O.taken output.new)) }
{
    output.put(bytes)?;
    match output.flush() {
        Ok(()) => Ok(()),
        Err(failed) => Err(failed),
    }
}
