//! Replies, and the answers to reads, as JSON: one form each.
ghost use Rattle.std.specs.Prelude.{◌≡◌, OnOk};
ghost use Rattle.machine.specs.declared.reads.ReadAnswer.TheVariants as answer;
ghost use Rattle.machine.specs.declared.reply.Reply.TheVariants as reply;
ghost use Rattle.serde_json.specs.Data.{string};
ghost use Rattle.script.specs.TranscriptDocument.{refusal_word, order_word, part_value, answer_value, reply_value};
ghost use Rattle.script.specs.Written.{WritesValue};

use crate::values::{HasValue, write_member, write_one, write_three, write_two};
use json::Writer;
use machine::{CallRefusal, HitNumbers, ReadAnswer, Reply, ReplyPart, Sequence, Span, Text};
use points::{MarkOrder, Point};
use std::alloc::AllocError;

// The word of a refusal.
fn refusal_word(refusal: CallRefusal) -> &'static str
    ensures { result.now ≡ refusal_word refusal }
{
    match refusal {
        CallRefusal::TooLong => "TooLong",
        CallRefusal::Nothing => "Nothing",
        CallRefusal::MarkTaken => "MarkTaken",
        CallRefusal::MarkUnknown => "MarkUnknown",
        CallRefusal::MarksFull => "MarksFull",
        CallRefusal::WatchTaken => "WatchTaken",
        CallRefusal::WatchFull => "WatchFull",
        CallRefusal::WatchUnknown => "WatchUnknown",
    }
}

impl HasValue for CallRefusal {
    ghost json = { λ refusal. string (refusal_word refusal) };

    fn write(&self, out: &mut Writer) -> Result<(), AllocError> {
        out.string(refusal_word(*self))
    }
}

// The word of how one mark stands to another.
fn order_word(order: MarkOrder) -> &'static str
    ensures { result.now ≡ order_word order }
{
    match order {
        MarkOrder::Before => "before",
        MarkOrder::Same => "same",
        MarkOrder::After => "after",
    }
}

impl HasValue for MarkOrder {
    ghost json = { λ order. string (order_word order) };

    fn write(&self, out: &mut Writer) -> Result<(), AllocError> {
        out.string(order_word(*self))
    }
}

impl HasValue for ReplyPart {
    ghost json = { part_value };

    fn write(&self, out: &mut Writer) -> Result<(), AllocError> {
        out.begin_object()?;
        write_member("end", &self.end, out)?;
        write_member("from", &self.from, out)?;
        write_member("hits", &self.hits, out)?;
        write_member("to", &self.to, out)?;
        out.end_object()
    }
}

// ---- the answers to reads

impl HasValue for ReadAnswer {
    ghost json = { answer_value };

    fn write(&self, out: &mut Writer) -> Result<(), AllocError> {
        match self {
            ReadAnswer::Size { extent, units } => write_two("extent", extent, "units", units, out),
            ReadAnswer::Text { text, units } => write_two("text", text, "units", units, out),
            ReadAnswer::Found { count, hits } => write_two("count", count, "hits", hits, out),
            ReadAnswer::Saved { bytes } => write_one("bytes", bytes, out),
        }
    }
}

// ---- the replies

// An edit.
fn write_edited(
    at: &u64,
    end: &Point,
    from: &Point,
    hits: &HitNumbers,
    to: &Point,
    out: &mut Writer,
) -> Result<(), AllocError>
    ensures { OnOk result (WritesValue out.old out.new
        (reply_value (reply.Edited at.now end.now from.now hits.now to.now))) }
{
    out.begin_object()?;
    write_member("at", at, out)?;
    write_member("end", end, out)?;
    write_member("from", from, out)?;
    write_member("hits", hits, out)?;
    write_member("to", to, out)?;
    out.end_object()
}

// A text shown by a command.
fn write_text(at: &u64, text: &Text, units: &u64, out: &mut Writer) -> Result<(), AllocError>
    ensures { OnOk result (WritesValue out.old out.new (reply_value (reply.Text at.now text.now units.now))) }
{
    write_three("at", at, "text", text, "units", units, out)
}

// Where a mark is.
fn write_range(at: &u64, exclusive: &bool, range: &Span, out: &mut Writer) -> Result<(), AllocError>
    ensures { OnOk result (WritesValue out.old out.new
        (reply_value (reply.Range at.now exclusive.now range.now))) }
{
    write_three("at", at, "exclusive", exclusive, "range", range, out)
}

impl HasValue for Reply {
    ghost json = { reply_value };

    fn write(&self, out: &mut Writer) -> Result<(), AllocError> {
        match self {
            Reply::Edited {
                at,
                end,
                from,
                hits,
                to,
            } => write_edited(at, end, from, hits, to, out),
            Reply::Batched { at, edits } => write_two("at", at, "edits", edits, out),
            Reply::Text { at, text, units } => write_text(at, text, units, out),
            Reply::Numbered { at } => write_one("at", at, out),
            Reply::Range {
                at,
                exclusive,
                range,
            } => write_range(at, exclusive, range, out),
            Reply::Marks { at, ids } => write_two("at", at, "ids", ids, out),
            Reply::Order { at, order } => write_two("at", at, "order", order, out),
            Reply::Heard { at, heard } => write_two("at", at, "heard", heard, out),
            Reply::Refused { at, no } => write_two("at", at, "no", no, out),
            Reply::Taken { version } => write_one("version", version, out),
            Reply::Answered { answers } => write_one("answers", answers, out),
            Reply::Nothing => out.null(),
        }
    }
}
