//! What a text answers to a read.
ghost use Rattle.std.specs.Prelude.{◌≡◌, None, IfOk};
ghost use Rattle.points.specs.Place.{span};
ghost use Rattle.machine.specs.Machine.{shown};
ghost use Rattle.machine.specs.Answers.{read_answer, text_answer};

use crate::find::find;
use crate::length::encoded_len;
use line_text::{LineText, splits_pair};
use machine::{Read, ReadAnswer, Text};
use points::{NoMemory, Range};
use std::alloc::Global;

/// Answers a read of a text; none where it wants the hits of a pattern.
pub fn answer(alloc: Global, text: &LineText, read: &Read) -> Result<Option<ReadAnswer>, NoMemory>
    ensures { IfOk result (λ a. a ≡ read_answer text.now None read.now) }
{
    match read {
        Read::Size => Ok(Some(ReadAnswer::Size {
            extent: text.extent(),
            units: text.len() as u64,
        })),
        Read::Text { range, limit } => Ok(Some(show(alloc, text, *range, *limit)?)),
        Read::Find { needle, limit } => Ok(Some(find(alloc, text, needle.as_str(), *limit)?)),
        Read::Pattern { .. } => Ok(None),
        Read::Save { encoding, .. } => Ok(Some(ReadAnswer::Saved {
            bytes: encoded_len(text, *encoding)?,
        })),
    }
}

// Shows the first `limit` units of the clipped range.
fn show(alloc: Global, text: &LineText, range: Range, limit: u32) -> Result<ReadAnswer, NoMemory>
    ensures { IfOk result (λ a. a ≡ text_answer text.now limit (span text.now range.start range.end)) }
{
    let (from, to) = text.span(range);
    let units = shown(text.slice(from, to), limit as usize);
    let shown = String::from_utf16_lossy(alloc, units)?;
    Ok(ReadAnswer::Text {
        text: Text::new(shown),
        units: (to - from) as u64,
    })
}

// The first units, at most `limit`, and one fewer where that would part a surrogate pair.
fn shown(units: &[u16], limit: usize) -> &[u16]
    ensures { result.now ≡ shown limit units.now }
{
    let most = limit.min(units.len());
    if splits_pair(units, most) {
        &units[..most - 1]
    } else {
        &units[..most]
    }
}
