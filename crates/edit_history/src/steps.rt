ghost use Rattle.std.specs.Prelude.{◌≡◌, ◌<◌, ◌≤◌, ◌+◌, ◌++◌, ◌↔◌, [], length, option_copied, IfOk, IsTrue};
ghost use Rattle.circular_buffer.specs.Buffer.{buffer};
ghost use Rattle.std.specs.Borrow.{sem};
ghost use Rattle.edit_history.specs.History.{pushed, undone, redone, oldest_gone, next_of, others_of, next_alone};

use circular_buffer::HeapCircularBuffer;
use patch::Change;
use points::{MAX_STEPS, NoMemory};
use std::alloc::Global;
use std::marker::Model;

/// The changes that can be taken back, and those taken back that can be made again.
#[derive(Drop)]
pub struct Steps {
    past: HeapCircularBuffer<Change>,
    future: HeapCircularBuffer<Change>,
}

impl Model for Steps {
    ghost use Rattle.std.specs.Prelude.{◌≡◌, ◌≤◌, ◌+◌, length};
    ghost use Rattle.edit_history.specs.History.{History};
    ghost use Rattle.patch.specs.declared.change.Change.{Change};
    ghost use Rattle.points.specs.declared.limits.TheConstants.{MAX_STEPS};

    ghost Value = { History Change };

    ghost view = { λ s. record { past = s.past.items; future = s.future.items } };

    ghost invariant = { λ s. (s.past.capacity ≡ MAX_STEPS) × (s.future.capacity ≡ MAX_STEPS)
        × (length s.past.items + length s.future.items ≤ MAX_STEPS) };
}

impl Steps {
    ghost use Rattle.edit_history.specs.Ending.{EndsAs};

    /// No steps, with the room for all that will ever be kept.
    pub fn new(alloc: Global) -> Result<Self, NoMemory>
        ensures { IfOk result (λ s. s ≡ record { past = []; future = [] }) }
    {
        let past = HeapCircularBuffer::with_capacity(alloc, MAX_STEPS)?;
        let future = HeapCircularBuffer::with_capacity(alloc, MAX_STEPS)?;
        Ok(Steps { past, future })
    }

    /// Adds a change that was made anew. What was taken back before it can't be made again. It answers
    /// the step that fell out, the oldest.
    pub fn push(&mut self, change: Change) -> Option<Change>
        ensures steps { self.new ≡ pushed MAX_STEPS self.old change }
        ensures fell { result ≡ oldest_gone MAX_STEPS self.old.past }
    {
        self.future.clear();
        self.past.push_back(change)
    }

    /// The change that [`undo`](Self::undo) takes back.
    pub fn to_undo(&self) -> Option<&Change>
        ensures { option_copied result ≡ next_of self.now.past }
    {
        self.past.back()
    }

    /// The change that [`redo`](Self::redo) makes again.
    pub fn to_redo(&self) -> Option<&Change>
        ensures { option_copied result ≡ next_of self.now.future }
    {
        self.future.back()
    }

    /// The change to take back, which can then be made again.
    pub fn undo(&mut self) -> Option<&Change>
        ensures* steps { sem 𝓛 (EndsAs self.entry (undone self.old)) }
        ensures lent { option_copied result ≡ next_of self.old.past }
    {
        if cross(&mut self.past, &mut self.future) {
            self.future.back()
        } else {
            None
        }
    }

    /// The change to make again, which can then be taken back.
    pub fn redo(&mut self) -> Option<&Change>
        ensures* steps { sem 𝓛 (EndsAs self.entry (redone self.old)) }
        ensures lent { option_copied result ≡ next_of self.old.future }
    {
        if cross(&mut self.future, &mut self.past) {
            self.past.back()
        } else {
            None
        }
    }
}

// Moves the last item of one ring to the end of another that has room for it, where there is one.
fn cross<T: Drop>(from: &mut HeapCircularBuffer<T>, to: &mut HeapCircularBuffer<T>) -> bool
    requires { length from.old.items + length to.old.items ≤ to.old.capacity }
    ensures any { IsTrue result ↔ (0 < length from.old.items) }
    ensures from { from.new ≡ buffer (others_of from.old.items) from.old.capacity }
    ensures to { to.new ≡ buffer (to.old.items ++ next_alone from.old.items) to.old.capacity }
{
    match from.pop_back() {
        Some(step) => {
            let _ = to.push_back(step);
            true
        }
        None => false,
    }
}
