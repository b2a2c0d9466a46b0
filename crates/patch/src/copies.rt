//! Patches made from others: an equal one, and the one back, with the sides of every change exchanged.
ghost use Rattle.std.specs.Prelude.{◌≡◌, ℕ, List, map, IfOk};
ghost use Rattle.patch.specs.Hunk.{hunk_of, hunks_of, inverted};
ghost use Rattle.patch.specs.Fit.{Fits, applied};

use crate::change::Change;
use crate::patch::Patch;
use points::NoMemory;
use std::alloc::Global;

impl Patch {
    /// The patch back: the sides of every change exchanged.
    pub fn invert(&self) -> Result<Patch, NoMemory>
        ensures sides { IfOk result (λ patch. patch.changes ≡ map inverted self.now.changes) }
        ensures back { IfOk result (λ patch. (s : List ℕ) → Fits self.now.changes s
            → Fits patch.changes (applied self.now.changes s) × (applied patch.changes (applied self.now.changes s)
            ≡ s)) }
    {
        let changes = turned(self.allocator(), self.as_slice())?;
        Ok(Patch { changes })
    }

    /// An equal patch, over the same allocator.
    pub fn try_clone(&self) -> Result<Patch, NoMemory>
        ensures { IfOk result (λ patch. patch.changes ≡ self.now.changes) }
    {
        let changes = copied(self.allocator(), self.as_slice())?;
        Ok(Patch { changes })
    }
}

// Equal changes.
fn copied(alloc: Global, changes: &[Change]) -> Result<Vec<Change>, NoMemory>
    ensures { IfOk result (λ copies. hunks_of copies.items ≡ hunks_of changes.now) }
{
    let mut copies = Vec::with_capacity(alloc, changes.len())?;
    for change in changes {
        copies.push(copy_of(change)?)?;
    }
    Ok(copies)
}

// The changes with their sides exchanged.
fn turned(alloc: Global, changes: &[Change]) -> Result<Vec<Change>, NoMemory>
    ensures { IfOk result (λ turned. hunks_of turned.items ≡ map inverted (hunks_of changes.now)) }
{
    let mut turned = Vec::with_capacity(alloc, changes.len())?;
    for change in changes {
        turned.push(turned_over(copy_of(change)?))?;
    }
    Ok(turned)
}

// The change with its sides exchanged.
fn turned_over(change: Change) -> Change
    ensures { hunk_of result ≡ inverted (hunk_of change) }
{
    Change {
        old_range: change.new_range,
        new_range: change.old_range,
        old_text: change.new_text,
        new_text: change.old_text,
    }
}

// An equal change.
fn copy_of(change: &Change) -> Result<Change, NoMemory>
    ensures { IfOk result (λ copy. hunk_of copy ≡ hunk_of change.now) }
{
    Ok(Change {
        old_range: change.old_range,
        new_range: change.new_range,
        old_text: change.old_text.try_clone()?,
        new_text: change.new_text.try_clone()?,
    })
}
