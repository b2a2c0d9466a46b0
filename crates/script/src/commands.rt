//! The commands, each read from the members that its word asks for.
ghost use Rattle.std.specs.Prelude.{◌≡◌};
ghost use Rattle.serde_json.specs.View.{view};
ghost use Rattle.script.specs.ScriptDocument.{edit_of, look_of, ranged_of, bare_of, unmark_of, mark_range_of, exclusive_of, compare_of, mark_of, how_of, marks_of, watch_of, unwatch_of, on_marks_of, take_of, asking_of, release_of, on_snapshots_of, on_text_of, command_of};
ghost use Rattle.script.specs.Rules.{is_on_marks, is_on_snapshots};
ghost use Rattle.script.specs.Reading.{Gives};

use crate::limits::{MAX_ID, MAX_SHOWN};
use crate::parts::{Misfit, flag_in, is_do, member_count, range_in, string_in, whole_in};
use crate::reads::reads_in;
use machine::{Command, How, Read, Sequence, Text};
use serde_json::Value;
use std::alloc::Global;

// An edit, from the members beside its word.
#[tactic(auto, unfolding(crate::specs::ScriptDocument::edit_of))]
fn edit_of(alloc: Global, value: &Value) -> Result<Command, Misfit>
    ensures { Gives (λ c. c) result (edit_of (view value.now)) }
{
    let range = range_in(value)?;
    let text = string_in(value, "text")?;
    let text = Text::from_str(alloc, text)?;
    Ok(Command::Edit { range, text })
}

// A look at the text, from the members beside its word.
#[tactic(auto, unfolding(crate::specs::ScriptDocument::look_of))]
fn look_of(value: &Value) -> Result<Command, Misfit>
    ensures { Gives (λ c. c) result (look_of (view value.now)) }
{
    let range = range_in(value)?;
    let limit = whole_in(MAX_SHOWN, value, "limit")?;
    Ok(Command::Text { range, limit })
}

// A command with two members beside its word, one a range.
#[tactic(auto, unfolding(crate::specs::ScriptDocument::ranged_of))]
fn ranged_of(alloc: Global, value: &Value) -> Result<Command, Misfit>
    ensures { Gives (λ c. c) result (ranged_of (view value.now)) }
{
    let word = string_in(value, "do")?;
    if word == "edit" {
        return edit_of(alloc, value);
    }
    if word == "text" {
        return look_of(value);
    }
    Err(Misfit::Shape)
}

// A command with no member beside its word.
#[tactic(auto, unfolding(crate::specs::ScriptDocument::bare_of))]
fn bare_of(value: &Value) -> Result<Command, Misfit>
    ensures { Gives (λ c. c) result (bare_of (view value.now)) }
{
    let word = string_in(value, "do")?;
    if word == "undo" {
        return Ok(Command::Undo);
    }
    if word == "redo" {
        return Ok(Command::Redo);
    }
    if word == "squash" {
        return Ok(Command::Squash);
    }
    Err(Misfit::Shape)
}

// The end of a mark.
#[tactic(auto, unfolding(crate::specs::ScriptDocument::unmark_of))]
fn unmark_of(value: &Value) -> Result<Command, Misfit>
    ensures { Gives (λ c. c) result (unmark_of (view value.now)) }
{
    if member_count(value) != 2 {
        return Err(Misfit::Shape);
    }
    let id = whole_in(MAX_ID, value, "id")?;
    Ok(Command::Unmark { id })
}

// A question where a mark is.
#[tactic(auto, unfolding(crate::specs::ScriptDocument::mark_range_of))]
fn mark_range_of(value: &Value) -> Result<Command, Misfit>
    ensures { Gives (λ c. c) result (mark_range_of (view value.now)) }
{
    if member_count(value) != 2 {
        return Err(Misfit::Shape);
    }
    let id = whole_in(MAX_ID, value, "id")?;
    Ok(Command::Range { id })
}

// Whether a mark is exclusive from now on.
#[tactic(auto, unfolding(crate::specs::ScriptDocument::exclusive_of))]
fn exclusive_of(value: &Value) -> Result<Command, Misfit>
    ensures { Gives (λ c. c) result (exclusive_of (view value.now)) }
{
    if member_count(value) != 3 {
        return Err(Misfit::Shape);
    }
    let id = whole_in(MAX_ID, value, "id")?;
    let exclusive = flag_in(value, "value")?;
    Ok(Command::Exclusive {
        id,
        value: exclusive,
    })
}

// A comparison of two marks.
#[tactic(auto, unfolding(crate::specs::ScriptDocument::compare_of))]
fn compare_of(value: &Value) -> Result<Command, Misfit>
    ensures { Gives (λ c. c) result (compare_of (view value.now)) }
{
    if member_count(value) != 3 {
        return Err(Misfit::Shape);
    }
    let a = whole_in(MAX_ID, value, "a")?;
    let b = whole_in(MAX_ID, value, "b")?;
    Ok(Command::Compare { a, b })
}

// A new mark.
#[tactic(auto, unfolding(crate::specs::ScriptDocument::mark_of))]
fn mark_of(value: &Value) -> Result<Command, Misfit>
    ensures { Gives (λ c. c) result (mark_of (view value.now)) }
{
    if member_count(value) != 4 {
        return Err(Misfit::Shape);
    }
    let id = whole_in(MAX_ID, value, "id")?;
    let range = range_in(value)?;
    let exclusive = flag_in(value, "exclusive")?;
    Ok(Command::Mark {
        id,
        range,
        exclusive,
    })
}

// Which marks are asked for.
#[tactic(auto, unfolding(crate::specs::ScriptDocument::how_of))]
fn how_of(word: &str) -> Result<How, Misfit>
    ensures { Gives (λ h. h) result (how_of word.now) }
{
    if word == "intersecting" {
        return Ok(How::Intersecting);
    }
    if word == "containing" {
        return Ok(How::Containing);
    }
    if word == "contained_in" {
        return Ok(How::ContainedIn);
    }
    if word == "starting_in" {
        return Ok(How::StartingIn);
    }
    if word == "starting_at" {
        return Ok(How::StartingAt);
    }
    if word == "ending_in" {
        return Ok(How::EndingIn);
    }
    if word == "ending_at" {
        return Ok(How::EndingAt);
    }
    Err(Misfit::Shape)
}

// A question which marks stand so to a range.
#[tactic(auto, unfolding(crate::specs::ScriptDocument::marks_of))]
fn marks_of(value: &Value) -> Result<Command, Misfit>
    ensures { Gives (λ c. c) result (marks_of (view value.now)) }
{
    if member_count(value) != 3 {
        return Err(Misfit::Shape);
    }
    let how = how_of(string_in(value, "how")?)?;
    let range = range_in(value)?;
    Ok(Command::Marks { how, range })
}

// The beginning of a watch.
#[tactic(auto, unfolding(crate::specs::ScriptDocument::watch_of))]
fn watch_of(value: &Value) -> Result<Command, Misfit>
    ensures { Gives (λ c. c) result (watch_of (view value.now)) }
{
    if member_count(value) != 2 {
        return Err(Misfit::Shape);
    }
    let id = whole_in(MAX_ID, value, "id")?;
    Ok(Command::Watch { id })
}

// The end of a watch.
#[tactic(auto, unfolding(crate::specs::ScriptDocument::unwatch_of))]
fn unwatch_of(value: &Value) -> Result<Command, Misfit>
    ensures { Gives (λ c. c) result (unwatch_of (view value.now)) }
{
    if member_count(value) != 2 {
        return Err(Misfit::Shape);
    }
    let id = whole_in(MAX_ID, value, "id")?;
    Ok(Command::Unwatch { id })
}

// Whether the word is one of the commands on marks and watchers.
fn is_on_marks(value: &Value) -> bool
    ensures { result ≡ is_on_marks (view value.now) }
{
    is_do(value, "unmark")
        || is_do(value, "range")
        || is_do(value, "exclusive")
        || is_do(value, "compare")
        || is_do(value, "mark")
        || is_do(value, "marks")
        || is_do(value, "watch")
        || is_do(value, "unwatch")
}

// Whether the word is one of the commands on snapshots.
fn is_on_snapshots(value: &Value) -> bool
    ensures { result ≡ is_on_snapshots (view value.now) }
{
    is_do(value, "take") || is_do(value, "read") || is_do(value, "send") || is_do(value, "release")
}

// A command on marks and watchers.
#[tactic(auto, unfolding(crate::specs::ScriptDocument::on_marks_of))]
fn on_marks_of(value: &Value) -> Result<Command, Misfit>
    ensures { Gives (λ c. c) result (on_marks_of (view value.now)) }
{
    let word = string_in(value, "do")?;
    if word == "unmark" {
        return unmark_of(value);
    }
    if word == "range" {
        return mark_range_of(value);
    }
    if word == "exclusive" {
        return exclusive_of(value);
    }
    if word == "compare" {
        return compare_of(value);
    }
    if word == "mark" {
        return mark_of(value);
    }
    if word == "marks" {
        return marks_of(value);
    }
    if word == "watch" {
        return watch_of(value);
    }
    if word == "unwatch" {
        return unwatch_of(value);
    }
    Err(Misfit::Shape)
}

// A snapshot that is taken under a number.
#[tactic(auto, unfolding(crate::specs::ScriptDocument::take_of))]
fn take_of(value: &Value) -> Result<Command, Misfit>
    ensures { Gives (λ c. c) result (take_of (view value.now)) }
{
    if member_count(value) != 2 {
        return Err(Misfit::Shape);
    }
    let snapshot = whole_in(MAX_ID, value, "snapshot")?;
    Ok(Command::Take { snapshot })
}

// The end of a snapshot.
#[tactic(auto, unfolding(crate::specs::ScriptDocument::release_of))]
fn release_of(value: &Value) -> Result<Command, Misfit>
    ensures { Gives (λ c. c) result (release_of (view value.now)) }
{
    if member_count(value) != 2 {
        return Err(Misfit::Shape);
    }
    let snapshot = whole_in(MAX_ID, value, "snapshot")?;
    Ok(Command::Release { snapshot })
}

// The number of a snapshot, and reads of it.
#[tactic(auto, unfolding(crate::specs::ScriptDocument::asking_of))]
fn asking_of(alloc: Global, value: &Value) -> Result<(u32, Sequence<Read>), Misfit>
    ensures { Gives (λ a. (a.0, a.1)) result (asking_of (view value.now)) }
{
    if member_count(value) != 3 {
        return Err(Misfit::Shape);
    }
    let snapshot = whole_in(MAX_ID, value, "snapshot")?;
    let reads = reads_in(alloc, value)?;
    Ok((snapshot, reads))
}

// A command on snapshots.
#[tactic(auto, unfolding(crate::specs::ScriptDocument::on_snapshots_of))]
fn on_snapshots_of(alloc: Global, value: &Value) -> Result<Command, Misfit>
    ensures { Gives (λ c. c) result (on_snapshots_of (view value.now)) }
{
    let word = string_in(value, "do")?;
    if word == "take" {
        return take_of(value);
    }
    if word == "read" {
        let (snapshot, reads) = asking_of(alloc, value)?;
        return Ok(Command::Read { snapshot, reads });
    }
    if word == "send" {
        let (snapshot, reads) = asking_of(alloc, value)?;
        return Ok(Command::Send { snapshot, reads });
    }
    if word == "release" {
        return release_of(value);
    }
    Err(Misfit::Shape)
}

// A command on the text and its steps: with three members or one.
#[tactic(auto, unfolding(crate::specs::ScriptDocument::on_text_of))]
fn on_text_of(alloc: Global, value: &Value) -> Result<Command, Misfit>
    ensures { Gives (λ c. c) result (on_text_of (view value.now)) }
{
    let count = member_count(value);
    if count == 3 {
        return ranged_of(alloc, value);
    }
    if count == 1 {
        return bare_of(value);
    }
    Err(Misfit::Shape)
}

/// A command, by its word.
#[tactic(auto, unfolding(crate::specs::ScriptDocument::command_of))]
pub(crate) fn command_of(alloc: Global, value: &Value) -> Result<Command, Misfit>
    ensures { Gives (λ c. c) result (command_of (view value.now)) }
{
    if is_on_marks(value) {
        return on_marks_of(value);
    }
    if is_on_snapshots(value) {
        return on_snapshots_of(alloc, value);
    }
    on_text_of(alloc, value)
}
