//! Whether two replies are the same.
ghost use Rattle.std.specs.Prelude.{◌≡◌};
ghost use Rattle.std.specs.Bool.{Decides};

use machine::{CallRefusal, HitNumbers, ReadAnswer, Reply, ReplyPart, Span};
use points::{MarkOrder, Point};

/// The replies are the same.
pub fn same_reply(a: &Reply, b: &Reply) -> bool
    ensures { Decides result (a.now ≡ b.now) }
{
    match b {
        Reply::Edited {
            at,
            end,
            from,
            hits,
            to,
        } => is_edited(a, *at, *end, *from, *hits, *to),
        Reply::Batched { at, edits } => is_batched(a, *at, edits.as_slice()),
        Reply::Text { at, text, units } => is_text(a, *at, text.as_str(), *units),
        Reply::Numbered { at } => is_numbered(a, *at),
        Reply::Range {
            at,
            exclusive,
            range,
        } => is_range(a, *at, *exclusive, *range),
        Reply::Marks { at, ids } => is_marks(a, *at, ids.as_slice()),
        Reply::Order { at, order } => is_order(a, *at, *order),
        Reply::Heard { at, heard } => is_heard(a, *at, *heard),
        Reply::Refused { at, no } => is_refused(a, *at, *no),
        Reply::Taken { version } => is_taken(a, *version),
        Reply::Answered { answers } => is_answered(a, answers.as_slice()),
        Reply::Nothing => is_nothing(a),
    }
}

/// The answers are the same.
pub fn same_answer(a: &ReadAnswer, b: &ReadAnswer) -> bool
    ensures { Decides result (a.now ≡ b.now) }
{
    match b {
        ReadAnswer::Size { extent, units } => is_size(a, *extent, *units),
        ReadAnswer::Text { text, units } => is_shown(a, text.as_str(), *units),
        ReadAnswer::Found { count, hits } => is_found(a, *count, hits.as_slice()),
        ReadAnswer::Saved { bytes } => is_saved(a, *bytes),
    }
}

fn is_edited(
    a: &Reply,
    number: u64,
    new_end: Point,
    start: Point,
    counts: HitNumbers,
    old_end: Point,
) -> bool
    ensures { Decides result (a.now ≡ Reply.Edited number new_end start counts old_end) }
{
    match a {
        Reply::Edited {
            at,
            end,
            from,
            hits,
            to,
        } => {
            *at == number && *end == new_end && *from == start && *hits == counts && *to == old_end
        }
        _ => false,
    }
}

fn is_batched(a: &Reply, number: u64, parts: &[ReplyPart]) -> bool
    ensures { Decides result (a.now ≡ Reply.Batched number parts.now) }
{
    match a {
        Reply::Batched { at, edits } => *at == number && same_parts(edits.as_slice(), parts),
        _ => false,
    }
}

fn is_text(a: &Reply, number: u64, shown: &str, count: u64) -> bool
    ensures { Decides result (a.now ≡ Reply.Text number shown.now count) }
{
    match a {
        Reply::Text { at, text, units } => {
            *at == number && *units == count && same_text(text.as_str(), shown)
        }
        _ => false,
    }
}

fn is_numbered(a: &Reply, number: u64) -> bool
    ensures { Decides result (a.now ≡ Reply.Numbered number) }
{
    match a {
        Reply::Numbered { at } => *at == number,
        _ => false,
    }
}

fn is_range(a: &Reply, number: u64, is_exclusive: bool, span: Span) -> bool
    ensures { Decides result (a.now ≡ Reply.Range number is_exclusive span) }
{
    match a {
        Reply::Range {
            at,
            exclusive,
            range,
        } => *at == number && *exclusive == is_exclusive && *range == span,
        _ => false,
    }
}

fn is_marks(a: &Reply, number: u64, marks: &[u32]) -> bool
    ensures { Decides result (a.now ≡ Reply.Marks number marks.now) }
{
    match a {
        Reply::Marks { at, ids } => *at == number && same_ids(ids.as_slice(), marks),
        _ => false,
    }
}

fn is_order(a: &Reply, number: u64, sort: MarkOrder) -> bool
    ensures { Decides result (a.now ≡ Reply.Order number sort) }
{
    match a {
        Reply::Order { at, order } => *at == number && *order == sort,
        _ => false,
    }
}

fn is_heard(a: &Reply, number: u64, changes: u64) -> bool
    ensures { Decides result (a.now ≡ Reply.Heard number changes) }
{
    match a {
        Reply::Heard { at, heard } => *at == number && *heard == changes,
        _ => false,
    }
}

fn is_refused(a: &Reply, number: u64, why: CallRefusal) -> bool
    ensures { Decides result (a.now ≡ Reply.Refused number why) }
{
    match a {
        Reply::Refused { at, no } => *at == number && *no == why,
        _ => false,
    }
}

fn is_taken(a: &Reply, number: u64) -> bool
    ensures { Decides result (a.now ≡ Reply.Taken number) }
{
    match a {
        Reply::Taken { version } => *version == number,
        _ => false,
    }
}

fn is_answered(a: &Reply, others: &[ReadAnswer]) -> bool
    ensures { Decides result (a.now ≡ Reply.Answered others.now) }
{
    match a {
        Reply::Answered { answers } => same_answers(answers.as_slice(), others),
        _ => false,
    }
}

fn is_nothing(a: &Reply) -> bool
    ensures { Decides result (a.now ≡ Reply.Nothing) }
{
    match a {
        Reply::Nothing => true,
        _ => false,
    }
}

fn is_size(a: &ReadAnswer, last: Point, count: u64) -> bool
    ensures { Decides result (a.now ≡ ReadAnswer.Size last count) }
{
    match a {
        ReadAnswer::Size { extent, units } => *extent == last && *units == count,
        _ => false,
    }
}

fn is_shown(a: &ReadAnswer, shown: &str, count: u64) -> bool
    ensures { Decides result (a.now ≡ ReadAnswer.Text shown.now count) }
{
    match a {
        ReadAnswer::Text { text, units } => *units == count && same_text(text.as_str(), shown),
        _ => false,
    }
}

fn is_found(a: &ReadAnswer, number: u64, spans: &[Span]) -> bool
    ensures { Decides result (a.now ≡ ReadAnswer.Found number spans.now) }
{
    match a {
        ReadAnswer::Found { count, hits } => {
            *count == number && same_spans(hits.as_slice(), spans)
        }
        _ => false,
    }
}

fn is_saved(a: &ReadAnswer, number: u64) -> bool
    ensures { Decides result (a.now ≡ ReadAnswer.Saved number) }
{
    match a {
        ReadAnswer::Saved { bytes } => *bytes == number,
        _ => false,
    }
}

fn same_answers(a: &[ReadAnswer], b: &[ReadAnswer]) -> bool
    ensures { Decides result (a.now ≡ b.now) }
{
    if a.len() != b.len() {
        return false;
    }
    for i in 0..a.len() {
        if !same_answer(&a[i], &b[i]) {
            return false;
        }
    }
    true
}

fn same_spans(a: &[Span], b: &[Span]) -> bool
    ensures { Decides result (a.now ≡ b.now) }
{
    if a.len() != b.len() {
        return false;
    }
    for i in 0..a.len() {
        if !same_span(a[i], b[i]) {
            return false;
        }
    }
    true
}

fn same_span(a: Span, b: Span) -> bool
    ensures { Decides result (a ≡ b) }
{
    a == b
}

fn same_parts(a: &[ReplyPart], b: &[ReplyPart]) -> bool
    ensures { Decides result (a.now ≡ b.now) }
{
    if a.len() != b.len() {
        return false;
    }
    for i in 0..a.len() {
        if !same_part(a[i], b[i]) {
            return false;
        }
    }
    true
}

fn same_part(a: ReplyPart, b: ReplyPart) -> bool
    ensures { Decides result (a ≡ b) }
{
    a == b
}

fn same_ids(a: &[u32], b: &[u32]) -> bool
    ensures { Decides result (a.now ≡ b.now) }
{
    a == b
}

/// The texts are the same.
pub fn same_text(a: &str, b: &str) -> bool
    ensures { Decides result (a.now ≡ b.now) }
{
    a == b
}
