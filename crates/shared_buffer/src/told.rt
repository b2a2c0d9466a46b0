//! The types that clauses name for an entry of the history and for a state. No value of them is ever made.
use std::marker::Model;

/// A call with its reply. Contracts see the entry.
pub struct Told {
    nothing: (),
}

impl Model for Told {
    ghost use Rattle.std.specs.Prelude.{None};
    ghost use Rattle.shared_buffer.specs.Entries.{Entry, handed};

    ghost Value = { Entry };

    ghost view = { λ t. handed None };
}

/// The plain machine's state, and which hands are out. Contracts see both.
pub struct Shown {
    nothing: (),
}

impl Model for Shown {
    ghost use Rattle.std.specs.Prelude.{[]};
    ghost use Rattle.machine.specs.Machine.{opened};
    ghost use Rattle.shared_buffer.specs.Entries.{Shared};

    ghost Value = { Shared };

    ghost view = { λ s. record { plain = opened []; out = [] } };
}
