//! What can be shared.
ghost use Rattle.std.specs.Prelude.{◌≡◌, ◌<◌, ◌≤◌, ℕ, true, List, [], length, IfOk, OnErr};
ghost use Rattle.points.specs.declared.limits.TheConstants.{MAX_HANDS};
ghost use Rattle.points.specs.Text.{IsWellFormed};
ghost use Rattle.chains.specs.declared.size.LayerSize.{LayerSize};
ghost use Rattle.machine.specs.Machine.{State};
ghost use Rattle.machine.specs.Answers.{call_of};
ghost use Rattle.machine.specs.Plain.{after_call, plain_reply};
ghost use Rattle.shared_buffer.specs.Entries.{is_plain, AreLayers};

use layers::{Reader, Shape};
use machine::{Command, Reply};
use points::{LAST, MAX_HANDS, NoMemory, Units};
use std::alloc::Global;

/// A buffer of one thread that follows the plain machine.
pub trait PlainBuffer: Drop {
    ghost state: { Self → State };

    // What is true of it between calls.
    ghost IsFit: { Self → Type 0 };

    // The version of a transcript in whose form it replies.
    ghost version: { ℕ };

    // How large its layers are, from the base to the newest.
    ghost sizes: { Self → List LayerSize };

    /// How many calls were numbered.
    fn count(&self) -> u64
        ensures { result ≡ (state self.now).count };

    /// A reader of the text as it is, which later calls don't change, and the number of the last call that changed the
    /// text. No surrogate of the text lacks its partner.
    fn reader(&self, alloc: Global) -> Result<(Reader, u64), NoMemory>
        ensures text { IfOk result (λ r. r.0.text ≡ (state self.now).text) }
        ensures version { IfOk result (λ r. r.1 ≡ (state self.now).version) }
        ensures whole { IfOk result (λ r. IsFit self.now → IsWellFormed r.0.text) };

    /// The units of the whole text, copied.
    fn units(&self, alloc: Global) -> Result<Units, NoMemory>
        ensures { IfOk result (λ units. units ≡ (state self.now).text) };

    /// Plays a numbered call that brings no watcher. A call that finds no memory changes nothing.
    fn play(&mut self, alloc: Global, command: &Command) -> Result<Reply, NoMemory>
        requires plain { is_plain command.now ≡ true }
        requires count { (state self.old).count < LAST }
        requires fit { IsFit self.old }
        ensures state { IfOk result (λ reply. state self.new ≡ after_call (state self.old) (call_of command.now)) }
        ensures reply { IfOk result (λ reply. reply ≡ plain_reply version (state self.old) [] [] command.now) }
        ensures err { OnErr result (state self.new ≡ state self.old) }
        ensures fit { IsFit self.new };

    /// A hand holds on to the text as it is, so that its layers stay in their place.
    fn hold(&mut self, hand: u32)
        requires hand { hand < MAX_HANDS }
        requires fit { IsFit self.old }
        ensures state { state self.new ≡ state self.old }
        ensures fit { IsFit self.new };

    /// A hand lets go of every older text that it held on to.
    fn let_go(&mut self, hand: u32)
        requires fit { IsFit self.old }
        ensures state { state self.new ≡ state self.old }
        ensures fit { IsFit self.new };

    /// Puts all layers above the base together, where there is more than one, and tells how many layers there are then.
    /// No call can tell the difference but `shape`.
    fn squash(&mut self, alloc: Global) -> Result<u32, NoMemory>
        requires fit { IsFit self.old }
        ensures depth { IfOk result (λ depth. depth ≡ length (sizes self.new)) }
        ensures flat { IfOk result (λ depth. depth ≤ 2) }
        ensures state { state self.new ≡ state self.old }
        ensures fit { IsFit self.new };

    /// How large the layers are.
    fn shape(&self, alloc: Global) -> Result<Shape, NoMemory>
        requires fit { IsFit self.now }
        ensures sizes { IfOk result (λ shape. shape ≡ sizes self.now) }
        ensures layers { IfOk result (λ shape. AreLayers shape) };
}
