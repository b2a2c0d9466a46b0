//! What a JSON value reads as: numbers, texts, points, words and lists.
ghost use Rattle.std.specs.Prelude.{◌≡◌, ◌<◌, Option};
ghost use Rattle.serde_json.specs.Data.{Data};
ghost use Rattle.serde_json.specs.Find.{get, as_str, as_bool};
ghost use Rattle.serde_json.specs.View.{view, items_view};
ghost use Rattle.script.specs.Parts.{member_count, item_count};
ghost use Rattle.transcripts.specs.Reading.{Gives, GivesAs, long_of, short_of, short_at, long_at, member_of, all_of, list_of, refusal_by, refusal_of, order_by, order_of, point_at, point_of, span_of, hits_of};

use crate::misfit::Misfit;
use machine::{CallRefusal, HitNumbers, Sequence, Span, Text};
use points::{MarkOrder, Point};
use serde_json::Value;
use std::alloc::Global;

// What is read from a JSON value.
pub(crate) trait FromValue: Drop {
    // What a value reads as, if anything.
    ghost reads: { Data → Option Self };

    fn from_value(alloc: Global, value: &Value) -> Result<Self, Misfit>
        ensures { Gives result (reads (view value.now)) };
}

// How many members an object has; nothing else has any.
pub(crate) fn member_count(value: &Value) -> usize
    ensures { result ≡ member_count (view value.now) }
{
    match value.as_object() {
        Some(members) => members.len(),
        None => 0,
    }
}

// How many items a list has; nothing else has any.
fn item_count(value: &Value) -> usize
    ensures { result ≡ item_count (view value.now) }
{
    match value.as_array() {
        Some(items) => items.as_slice().len(),
        None => 0,
    }
}

// What a member reads as.
pub(crate) fn member_of<T: FromValue>(alloc: Global, key: &str, value: &Value) -> Result<T, Misfit>
    ensures { Gives result (member_of T.FromValue.reads key.now (view value.now)) }
{
    match value.get(key) {
        Some(member) => T::from_value(alloc, member),
        None => Err(Misfit::Form),
    }
}

// ---- numbers

impl FromValue for u64 {
    ghost reads = { long_of };

    fn from_value(_alloc: Global, value: &Value) -> Result<Self, Misfit> {
        value.as_u64().ok_or(Misfit::Form)
    }
}

impl FromValue for u32 {
    ghost reads = { short_of };

    fn from_value(_alloc: Global, value: &Value) -> Result<Self, Misfit> {
        match value.as_u64() {
            Some(n) if n <= 4294967295 => Ok(n as u32),
            _ => Err(Misfit::Form),
        }
    }
}

// The number of 32 bits at this place of a list.
fn short_at(value: &Value, index: usize) -> Result<u32, Misfit>
    ensures { Gives result (short_at (view value.now) index) }
{
    match value.get(index) {
        Some(item) => match item.as_u64() {
            Some(n) if n <= 4294967295 => Ok(n as u32),
            _ => Err(Misfit::Form),
        },
        None => Err(Misfit::Form),
    }
}

// The number at this place of a list.
fn long_at(value: &Value, index: usize) -> Result<u64, Misfit>
    ensures { Gives result (long_at (view value.now) index) }
{
    match value.get(index) {
        Some(item) => item.as_u64().ok_or(Misfit::Form),
        None => Err(Misfit::Form),
    }
}

// The point that begins at this place of a list.
fn point_at(value: &Value, index: usize) -> Result<Point, Misfit>
    requires { index < 4 }
    ensures { Gives result (point_at (view value.now) index) }
{
    let row = short_at(value, index)?;
    let column = short_at(value, index + 1)?;
    Ok(Point { row, column })
}

impl FromValue for Point {
    ghost reads = { point_of };

    #[tactic(auto, unfolding(crate::specs::Reading::point_of))]
    fn from_value(_alloc: Global, value: &Value) -> Result<Self, Misfit> {
        if item_count(value) != 2 {
            return Err(Misfit::Form);
        }
        point_at(value, 0)
    }
}

impl FromValue for Span {
    ghost reads = { span_of };

    #[tactic(auto, unfolding(crate::specs::Reading::span_of))]
    fn from_value(_alloc: Global, value: &Value) -> Result<Self, Misfit> {
        if item_count(value) != 4 {
            return Err(Misfit::Form);
        }
        let start = point_at(value, 0)?;
        let end = point_at(value, 2)?;
        Ok(Span { start, end })
    }
}

impl FromValue for HitNumbers {
    ghost reads = { hits_of };

    #[tactic(auto, unfolding(crate::specs::Reading::hits_of))]
    fn from_value(_alloc: Global, value: &Value) -> Result<Self, Misfit> {
        if item_count(value) != 4 {
            return Err(Misfit::Form);
        }
        let touch = long_at(value, 0)?;
        let inside = long_at(value, 1)?;
        let overlap = long_at(value, 2)?;
        let surround = long_at(value, 3)?;
        Ok(HitNumbers {
            touch,
            inside,
            overlap,
            surround,
        })
    }
}

// ---- texts, flags and words

impl FromValue for bool {
    ghost reads = { as_bool };

    fn from_value(_alloc: Global, value: &Value) -> Result<Self, Misfit> {
        value.as_bool().ok_or(Misfit::Form)
    }
}

impl FromValue for Text {
    ghost reads = { as_str };

    fn from_value(alloc: Global, value: &Value) -> Result<Self, Misfit> {
        let text = value.as_str().ok_or(Misfit::Form)?;
        Ok(Text::from_str(alloc, text)?)
    }
}

// The refusal that a word stands for.
fn refusal_by(word: &str) -> Result<CallRefusal, Misfit>
    ensures { Gives result (refusal_by word.now) }
{
    match word {
        "TooLong" => Ok(CallRefusal::TooLong),
        "Nothing" => Ok(CallRefusal::Nothing),
        "MarkTaken" => Ok(CallRefusal::MarkTaken),
        "MarkUnknown" => Ok(CallRefusal::MarkUnknown),
        "MarksFull" => Ok(CallRefusal::MarksFull),
        "WatchTaken" => Ok(CallRefusal::WatchTaken),
        "WatchFull" => Ok(CallRefusal::WatchFull),
        "WatchUnknown" => Ok(CallRefusal::WatchUnknown),
        _ => Err(Misfit::Form),
    }
}

impl FromValue for CallRefusal {
    ghost reads = { refusal_of };

    fn from_value(_alloc: Global, value: &Value) -> Result<Self, Misfit> {
        refusal_by(value.as_str().ok_or(Misfit::Form)?)
    }
}

// How one mark stands to another, by its word.
fn order_by(word: &str) -> Result<MarkOrder, Misfit>
    ensures { Gives result (order_by word.now) }
{
    match word {
        "before" => Ok(MarkOrder::Before),
        "same" => Ok(MarkOrder::Same),
        "after" => Ok(MarkOrder::After),
        _ => Err(Misfit::Form),
    }
}

impl FromValue for MarkOrder {
    ghost reads = { order_of };

    fn from_value(_alloc: Global, value: &Value) -> Result<Self, Misfit> {
        order_by(value.as_str().ok_or(Misfit::Form)?)
    }
}

// ---- lists

// What the items read as, in order.
fn all_of<T: FromValue>(alloc: Global, items: &[Value]) -> Result<Vec<T>, Misfit>
    ensures { GivesAs (λ v. v.items) result (all_of T.FromValue.reads (items_view items.now)) }
{
    let mut members = Vec::new(alloc);
    for item in items {
        match T::from_value(alloc, item) {
            Ok(member) => members.push(member)?,
            Err(why) => return Err(why),
        }
    }
    Ok(members)
}

impl<T: FromValue> FromValue for Sequence<T> {
    ghost reads = { list_of T.FromValue.reads };

    fn from_value(alloc: Global, value: &Value) -> Result<Self, Misfit> {
        let items = value.as_array().ok_or(Misfit::Form)?;
        let members = all_of(alloc, items.as_slice())?;
        Ok(Sequence::new(members))
    }
}
