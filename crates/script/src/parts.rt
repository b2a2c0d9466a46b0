//! The parts of a script's JSON value: its members, its strings, its whole numbers and its ranges.
ghost use Rattle.std.specs.Prelude.{◌≡◌, ◌<◌, option_map};
ghost use Rattle.serde_json.specs.Find.{get};
ghost use Rattle.serde_json.specs.View.{view, items_view};
ghost use Rattle.script.specs.Parts.{member_count, item_count, string_in, whole_of, whole_in, flag_in, coordinate, point_from, range_between, range_of, range_in};
ghost use Rattle.script.specs.Reading.{Gives};
ghost use Rattle.script.specs.Rules.{is_do, is_save, reads_in};
ghost use Rattle.script.specs.declared.parts.Misfit.TheVariants.{NoMemory};

use points::{MAX_COORD, Point, Range};
use serde_json::Value;
use std::alloc::{AllocError, AllocFailed};

/// Why a part wasn't read.
#[derive(Drop)]
pub(crate) enum Misfit {
    /// The value has another shape.
    Shape,
    NoMemory,
}

impl From<AllocError> for Misfit {
    ghost from_gives = { λ _ misfit. misfit ≡ NoMemory };

    fn from(_error: AllocError) -> Self {
        Misfit::NoMemory
    }
}

impl<T: Drop> From<AllocFailed<T>> for Misfit {
    ghost from_gives = { λ _ misfit. misfit ≡ NoMemory };

    fn from(_failed: AllocFailed<T>) -> Self {
        Misfit::NoMemory
    }
}

// How many members an object has; nothing else has any.
pub(crate) fn member_count(value: &Value) -> usize
    ensures { result ≡ member_count (view value.now) }
{
    match value.as_object() {
        Some(members) => members.len(),
        None => 0,
    }
}

// How many items a list has; nothing else has any.
pub(crate) fn item_count(value: &Value) -> usize
    ensures { result ≡ item_count (view value.now) }
{
    match value.as_array() {
        Some(items) => items.as_slice().len(),
        None => 0,
    }
}

// The value of a member.
pub(crate) fn member<'v>(value: &'v Value, key: &str) -> Result<&'v Value, Misfit>
    ensures { Gives (λ v. view v.now) result (get key.now (view value.now)) }
{
    value.get(key).ok_or(Misfit::Shape)
}

// The string that a member is.
pub(crate) fn string_in<'v>(value: &'v Value, key: &str) -> Result<&'v str, Misfit>
    ensures { Gives (λ s. s.now) result (string_in key.now (view value.now)) }
{
    member(value, key)?.as_str().ok_or(Misfit::Shape)
}

// The string that a member is, where it is one.
pub(crate) fn text_in<'v>(value: &'v Value, key: &str) -> Option<&'v str>
    ensures { option_map (λ s. s.now) result ≡ string_in key.now (view value.now) }
{
    value.get(key)?.as_str()
}

// The whole number that the value is, where that is at most `limit`.
fn whole_of(limit: u32, value: &Value) -> Result<u32, Misfit>
    ensures { Gives (λ n. n) result (whole_of limit (view value.now)) }
{
    match value.as_u64() {
        Some(n) if n <= limit as u64 => Ok(n as u32),
        _ => Err(Misfit::Shape),
    }
}

// The whole number that a member is, where that is at most `limit`.
pub(crate) fn whole_in(limit: u32, value: &Value, key: &str) -> Result<u32, Misfit>
    ensures { Gives (λ n. n) result (whole_in limit key.now (view value.now)) }
{
    whole_of(limit, member(value, key)?)
}

// Whether a member is true or false.
pub(crate) fn flag_in(value: &Value, key: &str) -> Result<bool, Misfit>
    ensures { Gives (λ b. b) result (flag_in key.now (view value.now)) }
{
    member(value, key)?.as_bool().ok_or(Misfit::Shape)
}

// The row or column at this place of a range.
fn coordinate(value: &Value, index: usize) -> Result<u32, Misfit>
    ensures { Gives (λ n. n) result (coordinate (view value.now) index) }
{
    whole_of(MAX_COORD, value.get(index).ok_or(Misfit::Shape)?)
}

// The point that begins at this place of a range.
fn point_from(value: &Value, index: usize) -> Result<Point, Misfit>
    requires { index < 4 }
    ensures { Gives (λ p. p) result (point_from (view value.now) index) }
{
    let row = coordinate(value, index)?;
    let column = coordinate(value, index + 1)?;
    Ok(Point { row, column })
}

// The range between two points, where they are in order.
fn range_between(start: Point, end: Point) -> Result<Range, Misfit>
    ensures { Gives (λ r. r) result (range_between start end) }
{
    if start <= end {
        Ok(Range { start, end })
    } else {
        Err(Misfit::Shape)
    }
}

// A range: a list of four whole numbers.
#[tactic(auto, unfolding(crate::specs::Parts::range_of))]
fn range_of(value: &Value) -> Result<Range, Misfit>
    ensures { Gives (λ r. r) result (range_of (view value.now)) }
{
    if item_count(value) != 4 {
        return Err(Misfit::Shape);
    }
    let start = point_from(value, 0)?;
    let end = point_from(value, 2)?;
    range_between(start, end)
}

// The range that the member `range` is.
pub(crate) fn range_in(value: &Value) -> Result<Range, Misfit>
    ensures { Gives (λ r. r) result (range_in (view value.now)) }
{
    range_of(member(value, "range")?)
}

// Whether the value's `do` is this word.
pub(crate) fn is_do(value: &Value, word: &str) -> bool
    ensures { result ≡ is_do word.now (view value.now) }
{
    match value.get("do") {
        Some(found) => match found.as_str() {
            Some(found) => found == word,
            None => false,
        },
        None => false,
    }
}

// The reads of a `read` or a `send`; nothing else has any.
pub(crate) fn listed_reads<'v>(value: &'v Value) -> &'v [Value]
    ensures { items_view result.now ≡ reads_in (view value.now) }
{
    if !is_do(value, "read") && !is_do(value, "send") {
        return &[];
    }
    match value.get("reads") {
        Some(reads) => match reads.as_array() {
            Some(items) => items.as_slice(),
            None => &[],
        },
        None => &[],
    }
}

// Whether a read saves.
pub(crate) fn is_save(value: &Value) -> bool
    ensures { result ≡ is_save (view value.now) }
{
    match text_in(value, "get") {
        Some(word) => word == "save",
        None => false,
    }
}
