//! What a JSON value reads as: the answers to reads, and the replies.
ghost use Rattle.std.specs.Prelude.{◌≡◌};
ghost use Rattle.serde_json.specs.View.{view};
ghost use Rattle.transcripts.specs.Reading.{Gives, part_of, two_answered, answer_of, one_replied, two_replied, three_replied, five_replied, numbered_reply, reply_of};

use crate::from_value::{FromValue, member_count, member_of};
use crate::misfit::Misfit;
use machine::{ReadAnswer, Reply, ReplyPart};
use serde_json::Value;
use std::alloc::Global;

impl FromValue for ReplyPart {
    ghost reads = { part_of };

    #[tactic(auto, unfolding(crate::specs::Reading::part_of))]
    fn from_value(alloc: Global, value: &Value) -> Result<Self, Misfit> {
        if member_count(value) != 4 {
            return Err(Misfit::Form);
        }
        let end = member_of(alloc, "end", value)?;
        let from = member_of(alloc, "from", value)?;
        let hits = member_of(alloc, "hits", value)?;
        let to = member_of(alloc, "to", value)?;
        Ok(ReplyPart {
            end,
            from,
            hits,
            to,
        })
    }
}

// ---- the answers to reads

// An answer with two members.
fn two_answered(alloc: Global, value: &Value) -> Result<ReadAnswer, Misfit>
    ensures { Gives result (two_answered (view value.now)) }
{
    if let Some(extent) = value.get("extent") {
        let extent = FromValue::from_value(alloc, extent)?;
        let units = member_of(alloc, "units", value)?;
        return Ok(ReadAnswer::Size { extent, units });
    }
    if let Some(text) = value.get("text") {
        let text = FromValue::from_value(alloc, text)?;
        let units = member_of(alloc, "units", value)?;
        return Ok(ReadAnswer::Text { text, units });
    }
    let count = member_of(alloc, "count", value)?;
    let hits = member_of(alloc, "hits", value)?;
    Ok(ReadAnswer::Found { count, hits })
}

impl FromValue for ReadAnswer {
    ghost reads = { answer_of };

    #[tactic(auto, unfolding(crate::specs::Reading::answer_of))]
    fn from_value(alloc: Global, value: &Value) -> Result<Self, Misfit> {
        match member_count(value) {
            1 => {
                let bytes = member_of(alloc, "bytes", value)?;
                Ok(ReadAnswer::Saved { bytes })
            }
            2 => two_answered(alloc, value),
            _ => Err(Misfit::Form),
        }
    }
}

// ---- the replies

// A reply with one member.
#[tactic(auto, unfolding(crate::specs::Reading::one_replied))]
fn one_replied(alloc: Global, value: &Value) -> Result<Reply, Misfit>
    ensures { Gives result (one_replied (view value.now)) }
{
    if let Some(at) = value.get("at") {
        let at = FromValue::from_value(alloc, at)?;
        return Ok(Reply::Numbered { at });
    }
    if let Some(version) = value.get("version") {
        let version = FromValue::from_value(alloc, version)?;
        return Ok(Reply::Taken { version });
    }
    let answers = member_of(alloc, "answers", value)?;
    Ok(Reply::Answered { answers })
}

// A numbered reply with one member more.
#[tactic(auto, unfolding(crate::specs::Reading::two_replied))]
fn two_replied(alloc: Global, at: u64, value: &Value) -> Result<Reply, Misfit>
    ensures { Gives result (two_replied at (view value.now)) }
{
    if let Some(edits) = value.get("edits") {
        let edits = FromValue::from_value(alloc, edits)?;
        return Ok(Reply::Batched { at, edits });
    }
    if let Some(ids) = value.get("ids") {
        let ids = FromValue::from_value(alloc, ids)?;
        return Ok(Reply::Marks { at, ids });
    }
    if let Some(order) = value.get("order") {
        let order = FromValue::from_value(alloc, order)?;
        return Ok(Reply::Order { at, order });
    }
    if let Some(heard) = value.get("heard") {
        let heard = FromValue::from_value(alloc, heard)?;
        return Ok(Reply::Heard { at, heard });
    }
    let no = member_of(alloc, "no", value)?;
    Ok(Reply::Refused { at, no })
}

// A numbered reply with two members more.
#[tactic(auto, unfolding(crate::specs::Reading::three_replied))]
fn three_replied(alloc: Global, at: u64, value: &Value) -> Result<Reply, Misfit>
    ensures { Gives result (three_replied at (view value.now)) }
{
    if let Some(text) = value.get("text") {
        let text = FromValue::from_value(alloc, text)?;
        let units = member_of(alloc, "units", value)?;
        return Ok(Reply::Text { at, text, units });
    }
    let exclusive = member_of(alloc, "exclusive", value)?;
    let range = member_of(alloc, "range", value)?;
    Ok(Reply::Range {
        at,
        exclusive,
        range,
    })
}

// A change.
#[tactic(auto, unfolding(crate::specs::Reading::five_replied))]
fn five_replied(alloc: Global, at: u64, value: &Value) -> Result<Reply, Misfit>
    ensures { Gives result (five_replied at (view value.now)) }
{
    let end = member_of(alloc, "end", value)?;
    let from = member_of(alloc, "from", value)?;
    let hits = member_of(alloc, "hits", value)?;
    let to = member_of(alloc, "to", value)?;
    Ok(Reply::Edited {
        at,
        end,
        from,
        hits,
        to,
    })
}

// A reply to a numbered call that tells more than its number.
#[tactic(auto, unfolding(crate::specs::Reading::numbered_reply))]
fn numbered_reply(alloc: Global, value: &Value) -> Result<Reply, Misfit>
    ensures { Gives result (numbered_reply (view value.now)) }
{
    let at = member_of(alloc, "at", value)?;
    match member_count(value) {
        2 => two_replied(alloc, at, value),
        3 => three_replied(alloc, at, value),
        5 => five_replied(alloc, at, value),
        _ => Err(Misfit::Form),
    }
}

impl FromValue for Reply {
    ghost reads = { reply_of };

    #[tactic(auto, unfolding(crate::specs::Reading::reply_of))]
    fn from_value(alloc: Global, value: &Value) -> Result<Self, Misfit> {
        if value.is_null() {
            return Ok(Reply::Nothing);
        }
        if member_count(value) == 1 {
            return one_replied(alloc, value);
        }
        numbered_reply(alloc, value)
    }
}
