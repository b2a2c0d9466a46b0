//! The calls of a transcript, made again on the plain machine.
ghost use Rattle.std.specs.Prelude.{◌≡◌, ◌+◌, ◌-◌, ◌<◌, ◌^◌, length, MatchOption, IfOk, OnOk};
ghost use Rattle.std.specs.Bool.{Decides};
ghost use Rattle.points.specs.Text.{text_of};
ghost use Rattle.machine.specs.Machine.{step};
ghost use Rattle.machine.specs.Answers.{reply_of};
ghost use Rattle.transcript_check.specs.Versions as versions;

use crate::calls::Called;
use machine::{HitNumbers, Reply, ReplyPart, TranscriptEnd};
use plain_replay::Plain;
use points::{NoMemory, Point};
use snapshot_check::{same_reply, same_text};
use std::alloc::Global;

/// Makes a call. It answers whether the machine's reply is the transcript's.
pub(crate) fn agrees(version: u32, plain: &mut Plain, call: &Called<'_>) -> Result<bool, NoMemory>
    requires { plain.old.count < 2 ^ 57 - 1 }
    ensures state { OnOk result (plain.new ≡ (step plain.old call.now.call).0) }
    ensures agrees { IfOk result (λ b. Decides b (call.now.reply ≡ reply_of version (plain.old.count + 1) (step plain.old call.now.call).1)) }
{
    let reply = plain.step(call.command())?;
    let reply = in_version(version, reply);
    Ok(same_reply(call.reply(), &reply))
}

// A reply of the machine in the form of a transcript of this version.
fn in_version(version: u32, reply: Reply) -> Reply
    ensures { result ≡ versions.in_version version reply }
{
    match reply {
        Reply::Batched { at, edits } => {
            if version == 1 {
                edited_first(at, edits.as_slice())
            } else {
                Reply::Batched { at, edits }
            }
        }
        other => other,
    }
}

fn edited_first(at: u64, parts: &[ReplyPart]) -> Reply
    ensures { result ≡ versions.edited_first at parts.now }
{
    let part = match parts {
        [part, ..] => *part,
        [] => no_part(),
    };
    Reply::Edited {
        at,
        end: part.end,
        from: part.from,
        hits: part.hits,
        to: part.to,
    }
}

fn no_part() -> ReplyPart
    ensures { result ≡ versions.no_part }
{
    let start = Point { row: 0, column: 0 };
    ReplyPart {
        end: start,
        from: start,
        hits: HitNumbers {
            touch: 0,
            inside: 0,
            overlap: 0,
            surround: 0,
        },
        to: start,
    }
}

/// The end of the transcript is that of the machine.
pub(crate) fn ends_as(
    alloc: Global,
    end: &TranscriptEnd,
    calls: usize,
    units: &[u16],
) -> Result<bool, NoMemory>
    ensures { IfOk result (λ b. Decides b ((end.now.count ≡ calls) × (end.now.text ≡ text_of units.now))) }
{
    let text = String::from_utf16_lossy(alloc, units)?;
    Ok(end.count == calls as u64 && same_text(end.text.as_str(), text.as_str()))
}
