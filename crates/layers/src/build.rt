//! New layers of the top's text: an edit, a change that is undone or made again, all layers as one, and a new base.
//!
//! Each is made beside the shelf, which stays as it is until the layer is installed. A top that is the last that can be
//! numbered has none after it: that is answered as want of memory.
ghost use Rattle.std.specs.Prelude.{◌≡◌, ◌+◌, ◌-◌, ◌<◌, ◌≤◌, ◌^◌, ◌↔◌, ℕ, [], ◌∷◌, length, IfOk, MatchOption, Err};
ghost use Rattle.points.specs.Text.{utf16_of, replaced};
ghost use Rattle.points.specs.Place.{clipped_offset};
ghost use Rattle.points.specs.declared.limits.TheConstants.{MAX_UNITS};
ghost use Rattle.places.specs.Placed.{top_id};
ghost use Rattle.patch.specs.Hunk.{hunk_of};
ghost use Rattle.line_text.specs.declared.refusal.TextRefusal.TheVariants as TextRefusal;
ghost use Rattle.chains.specs.Layered.{depth_of};
ghost use Rattle.chains.specs.Changes.{CanReplace};
ghost use Rattle.layers.specs.Shelf.{top_layers, top_text, changed_top, squashed_top, based_top};
ghost use Rattle.layers.specs.Building.{AreSpots, turned, StandsThere, CanChange, edit_at};

use crate::new_layer::NewLayer;
use crate::shelf::{Shelf, places_are_sound};
use chains::Spot;
use line_text::{LineText, TextRefusal};
use patch::Change;
use places::TopId;
use points::{MAX_UNITS, NoMemory, Range, Units};

/// What a change puts in, and where.
#[derive(Clone, Copy)]
struct Side<'a> {
    range: Range,
    put: &'a Units,
}

impl Shelf {
    /// The layer that an edit of the top's text gives: the units between the clipped ends of the range are replaced by
    /// those of `text`. [`TextRefusal::TooLong`] comes where the text would have more than [`MAX_UNITS`] units.
    pub fn build(&self, version: u64, range: Range, text: &str) -> Result<NewLayer, TextRefusal>
        ensures ok { IfOk result (λ layer. layer ≡ changed_top self.now version
            ((clipped_offset (top_text self.now) range.start, clipped_offset (top_text self.now) range.end, utf16_of text.now) ∷ [])) }
        ensures too_long { result ≡ Err TextRefusal.TooLong → MAX_UNITS < length (replaced (top_text self.now)
            (clipped_offset (top_text self.now) range.start) (clipped_offset (top_text self.now) range.end) (utf16_of text.now)) }
        ensures fits { IfOk result (λ _. length (replaced (top_text self.now)
            (clipped_offset (top_text self.now) range.start) (clipped_offset (top_text self.now) range.end) (utf16_of text.now)) ≤ MAX_UNITS) }
    {
        let (from, to) = self.look().span(range);
        let put = LineText::from_str(self.alloc, text)?;
        self.build_between(version, from, to, &put)
    }

    /// The layer that an edit of the top's text gives: the units between two of its places are replaced by `put`.
    /// [`TextRefusal::TooLong`] comes where the text would have more than [`MAX_UNITS`] units.
    pub fn build_between(
        &self,
        version: u64,
        from: Spot,
        to: Spot,
        put: &LineText,
    ) -> Result<NewLayer, TextRefusal>
        requires { AreSpots (top_text self.now) from to }
        ensures ok { IfOk result (λ layer. layer ≡ changed_top self.now version ((from.offset, to.offset, put.now) ∷ [])) }
        ensures too_long { (result ≡ Err TextRefusal.TooLong) ↔ (MAX_UNITS < length (replaced (top_text self.now) from.offset to.offset put.now)) }
    {
        let kept = self.look().len() - (to.offset - from.offset) as usize;
        if kept + put.len() > MAX_UNITS {
            return Err(TextRefusal::TooLong);
        }
        Ok(self.changed(version, from, to, put)?)
    }

    /// The layer that a change of the top's text gives, or with `back` the change back, for undo and redo. Its points are
    /// those of the text, which is not clipped.
    pub fn build_change(
        &self,
        version: u64,
        change: &Change,
        back: bool,
    ) -> Result<NewLayer, NoMemory>
        requires { CanChange (top_text self.now) (turned back (hunk_of change.now)) }
        ensures { IfOk result (λ layer. (i : ℕ) → StandsThere (top_text self.now) (turned back (hunk_of change.now)) i
            → layer ≡ changed_top self.now version (edit_at i (turned back (hunk_of change.now)) ∷ [])) }
    {
        let side = side_of(change, back);
        let from = self.look().spot_of(side.range.start);
        let to = self.look().spot_of(side.range.end);
        let put = text_of(side.put)?;
        self.changed(version, from, to, &put)
    }

    /// All layers above the base as one, or, where that would have more than 512 changes or 65,536 units, a new base.
    /// `None` where the top has at most one layer above the base. Text and version stay.
    pub fn build_squash(&self) -> Result<Option<NewLayer>, NoMemory>
        ensures { IfOk result (λ made. MatchOption made (depth_of (top_layers self.now) ≤ 2)
            (λ layer. (2 < depth_of (top_layers self.now)) × (layer ≡ squashed_top self.now))) }
    {
        if self.look().depth() <= 2 {
            return Ok(None);
        }
        let on = self.young_top()?;
        let layers = self.look().squashed(self.alloc)?;
        let version = self.version();
        Ok(Some(NewLayer {
            layers,
            version,
            on,
        }))
    }

    /// The top's text as a new base. Text and version stay.
    pub fn build_base(&self) -> Result<NewLayer, NoMemory>
        ensures { IfOk result (λ layer. layer ≡ based_top self.now) }
    {
        let on = self.young_top()?;
        let layers = self.look().flattened(self.alloc)?;
        let version = self.version();
        Ok(NewLayer {
            layers,
            version,
            on,
        })
    }

    // The layer that an edit of the top's text gives.
    fn changed(
        &self,
        version: u64,
        from: Spot,
        to: Spot,
        put: &LineText,
    ) -> Result<NewLayer, NoMemory>
        requires { CanReplace (top_text self.now) from to put.now }
        ensures { IfOk result (λ layer. layer ≡ changed_top self.now version ((from.offset, to.offset, put.now) ∷ [])) }
    {
        let on = self.young_top()?;
        let layers = self.look().edited(self.alloc, from, to, put)?;
        Ok(NewLayer {
            layers,
            version,
            on,
        })
    }

    // Which top there is, where another can come after it.
    fn young_top(&self) -> Result<TopId, NoMemory>
        ensures top { IfOk result (λ on. on ≡ top_id self.now) }
        ensures young { IfOk result (λ on. on.age < 2 ^ 64 - 1) }
        ensures deep { IfOk result (λ on. on.depth ≡ depth_of (top_layers self.now)) }
        ensures shallow { depth_of (top_layers self.now) ≤ 8 }
    {
        places_are_sound(self);
        let on = self.table.top_id();
        if on.age == u64::MAX {
            Err(NoMemory)
        } else {
            Ok(on)
        }
    }
}

// What a change puts in, or takes out with `back`, and the range that it replaces.
fn side_of(change: &Change, back: bool) -> Side<'_>
    ensures start { result.range.start ≡ (turned back (hunk_of change.now)).old_start }
    ensures end { result.range.end ≡ (turned back (hunk_of change.now)).old_end }
    ensures put { result.put.now ≡ (turned back (hunk_of change.now)).new_text }
{
    if back {
        Side {
            range: change.new_range,
            put: &change.old_text,
        }
    } else {
        Side {
            range: change.old_range,
            put: &change.new_text,
        }
    }
}

// The text of these units.
fn text_of(units: &Units) -> Result<LineText, NoMemory>
    requires { length units.now ≤ MAX_UNITS }
    ensures { IfOk result (λ text. text ≡ units.now) }
{
    match LineText::from_units(units.try_clone()?) {
        Ok(text) => Ok(text),
        Err(TextRefusal::TooLong) => unreachable!(),
        Err(TextRefusal::NoMemory) => Err(NoMemory),
    }
}
