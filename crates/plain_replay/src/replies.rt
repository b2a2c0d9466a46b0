//! Answers as replies.
ghost use Rattle.std.specs.Prelude.{◌≡◌, map, IfOk};
ghost use Rattle.machine.specs.Machine.{Batched, edited_one};
ghost use Rattle.machine.specs.Answers.{reply_of, reply_part, hit_numbers};

use crate::change::Part;
use machine::{HitNumbers, Reply, ReplyPart, Sequence};
use points::{HitCounts, NoMemory};
use std::alloc::{AllocError, Global};

/// The reply to a call that makes several changes.
pub(crate) fn batched_reply(alloc: Global, at: u64, parts: &[Part]) -> Result<Reply, NoMemory>
    ensures { IfOk result (λ reply. reply ≡ reply_of 2 at (Batched parts.now)) }
{
    let edits = reply_parts(alloc, parts)?;
    Ok(Reply::Batched {
        at,
        edits: Sequence::new(edits),
    })
}

/// The reply to a call that makes one edit.
pub(crate) fn edited_reply(alloc: Global, at: u64, parts: &[Part]) -> Result<Reply, NoMemory>
    ensures { IfOk result (λ reply. reply ≡ reply_of 2 at (edited_one parts.now)) }
{
    let [part, ..] = parts else {
        return batched_reply(alloc, at, parts);
    };
    let ReplyPart {
        end,
        from,
        hits,
        to,
    } = reply_part(part);
    Ok(Reply::Edited {
        at,
        end,
        from,
        hits,
        to,
    })
}

// Each part in the form of a reply.
fn reply_parts(alloc: Global, parts: &[Part]) -> Result<Vec<ReplyPart>, AllocError>
    ensures { IfOk result (λ v. v.items ≡ map reply_part parts.now) }
{
    parts.iter().map(|part| reply_part(part)).collect(alloc)
}

fn reply_part(part: &Part) -> ReplyPart
    ensures { result ≡ reply_part part.now }
{
    let splice = part.splice;
    ReplyPart {
        end: splice.new_end,
        from: splice.start,
        hits: hit_numbers(part.hits),
        to: splice.old_end,
    }
}

fn hit_numbers(hits: HitCounts) -> HitNumbers
    ensures { result ≡ hit_numbers hits }
{
    HitNumbers {
        touch: u64::from(hits.touch),
        inside: u64::from(hits.inside),
        overlap: u64::from(hits.overlap),
        surround: u64::from(hits.surround),
    }
}
