//! Whether a patch fits a text, and the first change that doesn't.
ghost use Rattle.std.specs.Prelude.{◌≡◌, ◌↔◌, IsTrue, MatchOption};
ghost use Rattle.patch.specs.Hunk.{hunk_seen};
ghost use Rattle.patch.specs.Fit.{HunkFits, Fits};
ghost use Rattle.patch_algebra.specs.Applying.{IsFirstMisfit};

use line_text::LineText;
use patch::{ChangeView, Patch};

/// Whether each change's old text stands at its old range.
pub fn fits(patch: &Patch, text: &LineText) -> bool
    ensures { IsTrue result ↔ Fits patch.now.changes text.now }
{
    first_misfit(patch, text).is_none()
}

/// The first change whose old text doesn't stand at its old range.
pub(crate) fn first_misfit(patch: &Patch, text: &LineText) -> Option<usize>
    ensures { MatchOption result (Fits patch.now.changes text.now) (IsFirstMisfit patch.now.changes text.now) }
{
    patch
        .changes()
        .position(|change| !change_fits(change, text))
}

// Whether the change's old text stands at its old range.
fn change_fits(change: ChangeView<'_>, text: &LineText) -> bool
    ensures { IsTrue result ↔ HunkFits text.now (hunk_seen change.entry) }
{
    let Some(from) = text.offset_of(change.old_range.start) else {
        return false;
    };
    let Some(to) = text.offset_of(change.old_range.end) else {
        return false;
    };
    if to < from {
        return false;
    }
    text.slice(from, to) == change.old_text
}
