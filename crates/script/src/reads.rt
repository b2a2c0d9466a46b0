//! The reads of a snapshot, each read from the members that its word asks for.
ghost use Rattle.std.specs.Prelude.{◌≡◌, IfOk};
ghost use Rattle.std.specs.List.{list_all};
ghost use Rattle.serde_json.specs.View.{view, items_view};
ghost use Rattle.script.specs.Limits.{has_needle, has_needles};
ghost use Rattle.script.specs.Rules.{any_item};
ghost use Rattle.script.specs.ScriptDocument.{encoding_in, size_of, look_read_of, find_of, pattern_of, save_of, read_of, reads_of, listed_reads};
ghost use Rattle.script.specs.Reading.{Gives, is_unread, unread_rule};

use crate::before::snapshot_in;
use crate::limits::{MAX_HITS, MAX_SHOWN};
use crate::opening::encoding_of;
use crate::parts::{
    Misfit, is_save, listed_reads, member, member_count, range_in, string_in, whole_in,
};
use crate::refusal::ScriptRule;
use machine::{Command, Encoding, Read, Sequence, Text};
use serde_json::Value;
use std::alloc::{AllocError, Global};

// The size of the text.
#[tactic(auto, unfolding(crate::specs::ScriptDocument::size_of))]
fn size_of(value: &Value) -> Result<Read, Misfit>
    ensures { Gives (λ r. r) result (size_of (view value.now)) }
{
    if member_count(value) != 1 {
        return Err(Misfit::Shape);
    }
    Ok(Read::Size)
}

// A look at the text.
#[tactic(auto, unfolding(crate::specs::ScriptDocument::look_read_of))]
fn look_of(value: &Value) -> Result<Read, Misfit>
    ensures { Gives (λ r. r) result (look_read_of (view value.now)) }
{
    if member_count(value) != 3 {
        return Err(Misfit::Shape);
    }
    let range = range_in(value)?;
    let limit = whole_in(MAX_SHOWN, value, "limit")?;
    Ok(Read::Text { range, limit })
}

// A search for a text.
#[tactic(auto, unfolding(crate::specs::ScriptDocument::find_of))]
fn find_of(alloc: Global, value: &Value) -> Result<Read, Misfit>
    ensures { Gives (λ r. r) result (find_of (view value.now)) }
{
    if member_count(value) != 3 {
        return Err(Misfit::Shape);
    }
    let needle = string_in(value, "needle")?;
    let limit = whole_in(MAX_HITS, value, "limit")?;
    let needle = Text::from_str(alloc, needle)?;
    Ok(Read::Find { needle, limit })
}

// A search for the hits of a pattern.
#[tactic(auto, unfolding(crate::specs::ScriptDocument::pattern_of))]
fn pattern_of(alloc: Global, value: &Value) -> Result<Read, Misfit>
    ensures { Gives (λ r. r) result (pattern_of (view value.now)) }
{
    if member_count(value) != 3 {
        return Err(Misfit::Shape);
    }
    let pattern = string_in(value, "pattern")?;
    let limit = whole_in(MAX_HITS, value, "limit")?;
    let pattern = Text::from_str(alloc, pattern)?;
    Ok(Read::Pattern { pattern, limit })
}

// The encoding that a member names.
fn encoding_in(value: &Value) -> Result<Encoding, Misfit>
    ensures { Gives (λ e. e) result (encoding_in (view value.now)) }
{
    encoding_of(string_in(value, "encoding")?).ok_or(Misfit::Shape)
}

// A save to a file.
#[tactic(auto, unfolding(crate::specs::ScriptDocument::save_of))]
fn save_of(alloc: Global, value: &Value) -> Result<Read, Misfit>
    ensures { Gives (λ r. r) result (save_of (view value.now)) }
{
    if member_count(value) != 3 {
        return Err(Misfit::Shape);
    }
    let encoding = encoding_in(value)?;
    let name = string_in(value, "name")?;
    let name = Text::from_str(alloc, name)?;
    Ok(Read::Save { name, encoding })
}

// A read, by its word.
#[tactic(auto, unfolding(crate::specs::ScriptDocument::read_of))]
fn read_of(alloc: Global, value: &Value) -> Result<Read, Misfit>
    ensures { Gives (λ r. r) result (read_of (view value.now)) }
{
    let word = string_in(value, "get")?;
    if word == "size" {
        return size_of(value);
    }
    if word == "text" {
        return look_of(value);
    }
    if word == "find" {
        return find_of(alloc, value);
    }
    if word == "pattern" {
        return pattern_of(alloc, value);
    }
    if word == "save" {
        return save_of(alloc, value);
    }
    Err(Misfit::Shape)
}

// The reads, one after another.
fn reads_of(alloc: Global, items: &[Value]) -> Result<Vec<Read>, Misfit>
    ensures { Gives (λ rs. rs.items) result (reads_of (items_view items.now)) }
{
    let mut reads = Vec::new(alloc);
    for item in items {
        let read = read_of(alloc, item)?;
        reads.push(read)?;
    }
    Ok(reads)
}

/// The reads that the member `reads` lists.
pub(crate) fn reads_in(alloc: Global, value: &Value) -> Result<Sequence<Read>, Misfit>
    ensures { Gives (λ rs. rs) result (listed_reads (view value.now)) }
{
    let items = member(value, "reads")?.as_array().ok_or(Misfit::Shape)?;
    Ok(Sequence::new(reads_of(alloc, items.as_slice())?))
}

// Whether a text that is to be found isn't empty.
fn has_needle(read: &Read) -> bool
    ensures { result ≡ has_needle read.now }
{
    match read {
        Read::Find { needle, .. } => !needle.as_str().is_empty(),
        _ => true,
    }
}

fn have_needles(reads: &[Read]) -> bool
    ensures { result ≡ list_all has_needle reads.now }
{
    for read in reads {
        if !has_needle(read) {
            return false;
        }
    }
    true
}

/// Whether no text that a command seeks is empty.
pub(crate) fn has_needles(command: &Command) -> bool
    ensures { result ≡ has_needles command.now }
{
    match command {
        Command::Read { reads, .. } | Command::Send { reads, .. } => have_needles(reads.as_slice()),
        _ => true,
    }
}

// Whether one of these isn't read: of the saves, or of the other reads.
fn are_unread(alloc: Global, save: bool, reads: &[Value]) -> Result<bool, AllocError>
    ensures { IfOk result (λ b. b ≡ any_item (is_unread save) (items_view reads.now)) }
{
    for read in reads {
        if is_unread(alloc, save, read)? {
            return Ok(true);
        }
    }
    Ok(false)
}

fn is_unread(alloc: Global, save: bool, read: &Value) -> Result<bool, AllocError>
    ensures { IfOk result (λ b. b ≡ is_unread save (view read.now)) }
{
    let asked = if save { is_save(read) } else { !is_save(read) };
    if !asked {
        return Ok(false);
    }
    match read_of(alloc, read) {
        Ok(_) => Ok(false),
        Err(Misfit::Shape) => Ok(true),
        Err(Misfit::NoMemory) => Err(AllocError),
    }
}

/// The rule that a command breaks whose members have the right kinds and that isn't read. Its numbers are looked at before its
/// encodings.
pub(crate) fn unread_rule(alloc: Global, value: &Value) -> Result<ScriptRule, AllocError>
    ensures { IfOk result (λ why. why ≡ unread_rule (view value.now)) }
{
    let reads = listed_reads(value);
    let encodings = are_unread(alloc, true, reads)?;
    let numbers = are_unread(alloc, false, reads)?;
    if encodings && snapshot_in(value).is_some() && !numbers {
        Ok(ScriptRule::BadEncoding)
    } else {
        Ok(ScriptRule::BadNumber)
    }
}
