//! The one place where the text changes.
ghost use Rattle.std.specs.Prelude.{◌≡◌, ◌+◌, ◌-◌, ◌≤◌, length, IfOk, OnOk, OnErr};
ghost use Rattle.points.specs.Text.{replaced};
ghost use Rattle.points.specs.Place.{point_at};
ghost use Rattle.machine.specs.Machine.{splice_at};
ghost use Rattle.machine.specs.Answers.{hit_numbers, edited_reply};
ghost use Rattle.followers.specs.Following.{splice_by, change_of};
ghost use Rattle.layers.specs.Building.{AreSpots};

use crate::layered_text::LayeredText;
use chains::Spot;
use machine::{HitNumbers, Reply};
use patch::Change;
use points::{HitCounts, MAX_UNITS, NoMemory, Range, Splice, Units};

/// Replaces the units between two places of the text. The answer is the change, with its places in the text before it
/// and after it.
pub(crate) fn change(
    text: &mut LayeredText,
    from: Spot,
    to: Spot,
    old_text: Units,
    new_text: Units,
) -> Result<Change, NoMemory>
    requires places { AreSpots text.old from to }
    requires fits { length text.old + length new_text ≤ MAX_UNITS + (to.offset - from.offset) }
    ensures ok { OnOk result (text.new ≡ replaced text.old from.offset to.offset new_text) }
    ensures err { OnErr result (text.new ≡ text.old) }
    ensures splice { IfOk result (λ c. splice_by c ≡ splice_at text.old from.offset to.offset new_text) }
    ensures start { IfOk result (λ c. c.new_range.start ≡ c.old_range.start) }
    ensures texts { IfOk result (λ c. change_of c ≡ record { start = point_at text.old from.offset; old = old_text; new = new_text }) }
{
    text.put(from, to, &new_text)?;
    let new_end = text.point_at(from.offset as usize + new_text.len());
    Ok(Change {
        old_range: Range::new(from.point, to.point),
        new_range: Range::new(from.point, new_end),
        old_text,
        new_text,
    })
}

/// The numbers of a transcript.
pub(crate) fn hit_numbers(hits: HitCounts) -> HitNumbers
    ensures { result ≡ hit_numbers hits }
{
    HitNumbers {
        touch: u64::from(hits.touch),
        inside: u64::from(hits.inside),
        overlap: u64::from(hits.overlap),
        surround: u64::from(hits.surround),
    }
}

/// What a change is to marks.
pub(crate) fn splice_by(change: &Change) -> Splice
    ensures { result ≡ splice_by change.now }
{
    Splice {
        start: change.old_range.start,
        old_end: change.old_range.end,
        new_end: change.new_range.end,
    }
}

/// The reply to a change: where it was made, and how many marks it hit.
pub(crate) fn edited_reply(at: u64, place: Splice, hits: HitCounts) -> Reply
    ensures { result ≡ edited_reply at (record { from = place.start; to = place.old_end; end = place.new_end; hits = hits }) }
{
    Reply::Edited {
        at,
        end: place.new_end,
        from: place.start,
        hits: hit_numbers(hits),
        to: place.old_end,
    }
}
