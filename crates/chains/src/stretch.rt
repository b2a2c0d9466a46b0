//! Stretches of a text in layers that stand in one layer.
ghost use Rattle.std.specs.Prelude.{◌≡◌, ◌+◌, ◌<◌, ◌≤◌, length, slice_range};
ghost use Rattle.chains.specs.Layered.{tags_since};
ghost use Rattle.chains.specs.Overlay.{overlays_of, tags_above, text_of_all, AreLaid};
ghost use Rattle.chains.specs.Stand.{tags_at, StandsAt};

use crate::held::{Held, top_of};
use crate::stand::{Stand, standing};
use line_text::{LineText, TextPart};

/// Units that stand in one layer, and where they stand in the base; `None` where a layer above put them in.
#[derive(Drop)]
pub(crate) struct Stretch<'a> {
    pub(crate) part: TextPart<'a>,
    pub(crate) base: Option<u32>,
}

/// The longest stretch of units from `at` on, up to `to` at most, that stands in one layer.
pub(crate) fn stretch_at<'a>(
    base: &'a LineText,
    held: &'a [Option<Held>],
    at: u32,
    to: u32,
) -> Stretch<'a>
    requires laid { AreLaid base.now (overlays_of held.now) }
    requires order { at < to }
    requires within { to ≤ length (text_of_all base.now (overlays_of held.now)) }
    ensures some { 0 < length result.part }
    ensures within { at + length result.part ≤ to }
    ensures tags { slice_range (tags_since base.entry.now (tags_above base.entry.now (overlays_of held.entry.now))) at (at + length result.part) ≡ tags_at result.part result.base }
    ensures stands { StandsAt base.entry.now result.part result.base }
{
    match top_of(held) {
        None => Stretch {
            part: base.part(at as usize, to as usize),
            base: Some(at),
        },
        Some(top) => match standing(top.overlay, at, to) {
            Stand::Put { from, len } => {
                let end = from + len;
                Stretch {
                    part: top.overlay.text.part(from as usize, end as usize),
                    base: None,
                }
            }
            Stand::Kept { from, len } => stretch_at(base, top.below, from, from + len),
        },
    }
}
