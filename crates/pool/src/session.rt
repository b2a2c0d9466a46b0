//! What runs in a thread of its own and sends tasks.
ghost use Rattle.std.specs.Prelude.{◌≡◌, ℕ, ◌≤◌, List, []};
ghost use Rattle.shared_buffer.specs.Tokens.{Opening};
ghost use Rattle.pool.specs.Sendings.{Sending, then_sent, AreOfSession};

use crate::port::Port;
use gates::Gate;
use outer::{Matcher, Sink};
use shared_buffer::{PlainBuffer, SharedBuffer};
use std::alloc::Global;
use std::sync::Wait;

/// A session, which calls a buffer that it shares with others, and sends tasks.
pub trait Session<B: PlainBuffer + Send, M: Matcher, K: Sink + Drop, G: Gate>: Send + Drop {
    /// What a session leaves.
    type Out: Send + Drop;

    // Its number.
    ghost number: { Self → ℕ };

    // How many tasks it sends at most.
    ghost limit: { Self → ℕ };

    // Whether its tokens belong to this buffer.
    ghost IsOf: { Self → Opening → Type 0 };

    // What its run over this buffer may leave.
    ghost Leaves: { Self → Opening → Self.Out → Type 0 };

    // The tasks that were sent in the run that left this, in order.
    ghost sent: { Self.Out → List (Sending M K) };

    /// How many tasks it sends at most.
    fn most(&self) -> u32
        ensures { result ≡ limit self.now };

    /// Runs the session. It sends all its tasks through the port, under its own number and with rising numbers.
    fn run<R: Wait>(
        self,
        rt: &R,
        alloc: Global,
        buffer: &SharedBuffer<B>,
        port: &mut Port<'_, B, M, K, G>,
    ) -> Self::Out
        requires buffer { IsOf self buffer.now }
        requires port { (port.old.sent ≡ []) × (limit self ≤ port.old.most) }
        ensures leaves { Leaves self buffer.now result }
        ensures sent { port.new ≡ then_sent port.old (sent result) }
        ensures tasks { AreOfSession (number self) (limit self) (sent result) };
}
