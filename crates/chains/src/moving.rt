//! Changes that are taken over from one layer into another, where they stand elsewhere in its text.
ghost use Rattle.std.specs.Prelude.{◌≡◌, ℕ, ◌++◌, List, map, slice_get, Some, OnOk};
ghost use Rattle.chains.specs.declared.overlay.Cut.{Cut as ACut};
ghost use Rattle.chains.specs.Moving.{CanMove, moved_cut};

use crate::overlay::Cut;
use crate::spot::{Spot, ahead};
use points::NoMemory;
use std::alloc::Global;

/// From where to where changes are moved: in the text that the layer gives, and in that which it holds.
#[derive(Clone, Copy, Debug)]
pub struct Shift {
    pub(crate) from: Spot,
    pub(crate) to: Spot,
    pub(crate) text_from: u32,
    pub(crate) text_to: u32,
}

impl Cut {
    // The change, moved.
    fn moved(self, by: Shift) -> Cut
        requires { CanMove by self }
        ensures { result ≡ moved_cut by self }
    {
        Cut {
            old: self.old,
            old_end: self.old_end,
            new: ahead(by.to, by.from, self.new),
            new_end: ahead(by.to, by.from, self.new_end),
            text: self.text - by.text_from + by.text_to,
        }
    }
}

/// Puts the changes, moved, behind others.
pub(crate) fn move_cuts(into: &mut Vec<Cut>, cuts: &[Cut], by: Shift) -> Result<(), NoMemory>
    requires { (i : ℕ) → (c : ACut) → slice_get cuts.now i ≡ Some c → CanMove by c }
    ensures { OnOk result (into.new.items ≡ into.old.items ++ map (moved_cut by) cuts.now) }
{
    for cut in cuts {
        into.push(cut.moved(by))?;
    }
    Ok(())
}
