//! Changes of a first patch, as they stand in the text that it makes.
ghost use Rattle.std.specs.Prelude.{◌≡◌, map, take, drop, IfOk};
ghost use Rattle.patch.specs.Hunk.{hunk_seen};
ghost use Rattle.patch.specs.Stretches.{part_seen};
ghost use Rattle.patch_algebra.specs.Merging.{between, between_seen, betweens_seen, part_between, left_of, cut_offset};

use patch::{ChangeView, Patch, Stretch};
use points::{NoMemory, Point, offset_of, traversal};
use std::alloc::Global;

/// A change, or what is left of one: where its new text stands in the text between two patches,
/// and its texts.
#[derive(Clone, Copy, Debug)]
pub(crate) struct Middle<'a> {
    pub start: Point,
    pub end: Point,
    pub old_text: &'a [u16],
    pub new_text: &'a [u16],
}

impl<'a> Middle<'a> {
    // A change as such.
    fn of(change: ChangeView<'a>) -> Self
        ensures { between_seen result ≡ between (hunk_seen change.entry) }
    {
        Middle {
            start: change.new_range.start,
            end: change.new_range.end,
            old_text: change.old_text,
            new_text: change.new_text,
        }
    }

    /// The change as a stretch of the old text, behind a place in the text between.
    pub fn behind(&self, place: Point) -> Stretch<'a>
        ensures { part_seen result ≡ part_between place (between_seen self.now) }
    {
        Stretch {
            kept: traversal(self.start, place),
            old_text: self.old_text,
            new_text: self.new_text,
        }
    }

    /// What is left of the change from `start` on: these new units.
    pub fn left(&self, start: Point, units: &'a [u16]) -> Self
        ensures { between_seen result ≡ left_of start (between_seen self.now) units.entry.now }
    {
        Middle {
            start,
            end: self.end,
            old_text: &[],
            new_text: units,
        }
    }

    /// The new units before a place in the change, and those behind it.
    pub fn cut_at(&self, to: Point) -> (&'a [u16], &'a [u16])
        ensures before { result.0.now ≡ take (cut_offset to (between_seen self.now)) self.now.new_text.now }
        ensures behind { result.1.now ≡ drop (cut_offset to (between_seen self.now)) self.now.new_text.now }
    {
        let at = offset_of(self.new_text, traversal(to, self.start)).unwrap_or(0);
        self.new_text.split_at(at)
    }
}

/// The changes of a patch.
pub(crate) fn middles_of(alloc: Global, patch: &Patch) -> Result<Vec<Middle<'_>>, NoMemory>
    ensures { IfOk result (λ middles. betweens_seen middles.items ≡ map between patch.now.changes) }
{
    let mut middles = Vec::with_capacity(alloc, patch.count())?;
    for change in patch.changes() {
        middles.push(Middle::of(change))?;
    }
    Ok(middles)
}
