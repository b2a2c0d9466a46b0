//! What a script opens: a text, or a file in an encoding. It is read, or the lowest rule that it breaks is told.
ghost use Rattle.std.specs.Prelude.{◌≡◌, codes, Some, None, IfOk, IfErr};
ghost use Rattle.std.specs.List.{list_all};
ghost use Rattle.serde_json.specs.Find.{get};
ghost use Rattle.serde_json.specs.View.{view};
ghost use Rattle.script.specs.ScriptDocument.{encoding_of, opening_of};
ghost use Rattle.script.specs.Rules.{first_broken, is_name, is_name_byte};
ghost use Rattle.script.specs.Reading.{FaultIs, opening_tests};

use crate::before::CommandFault;
use crate::count::units_of;
use crate::limits::MAX_NAME;
use crate::parts::{member_count, text_in};
use crate::refusal::ScriptRule;
use machine::{Encoding, Opening, Text};
use points::MAX_UNITS;
use serde_json::Value;
use std::alloc::Global;

// The encoding with this word.
#[tactic(auto, unfolding(crate::specs::ScriptDocument::encoding_of))]
pub(crate) fn encoding_of(word: &str) -> Option<Encoding>
    ensures { result ≡ encoding_of word.now }
{
    if word == "utf8" {
        return Some(Encoding::Utf8);
    }
    if word == "utf16le" {
        return Some(Encoding::Utf16Le);
    }
    if word == "utf16be" {
        return Some(Encoding::Utf16Be);
    }
    if word == "latin1" {
        return Some(Encoding::Latin1);
    }
    None
}

// A letter, a digit, `.`, `_` or `-`.
fn is_name_byte(b: u8) -> bool
    ensures { result ≡ is_name_byte b }
{
    (65 <= b && b <= 90)
        || (97 <= b && b <= 122)
        || (48 <= b && b <= 57)
        || b == 46
        || b == 95
        || b == 45
}

fn are_name_bytes(bytes: &[u8]) -> bool
    ensures { result ≡ list_all is_name_byte bytes.now }
{
    for b in bytes {
        if !is_name_byte(*b) {
            return false;
        }
    }
    true
}

/// Whether a text is the name of a file: 1 to 64 letters, digits, `.`, `_` and `-`, and no `.` first.
pub(crate) fn is_name(name: &str) -> bool
    ensures { result ≡ is_name name.now }
{
    let bytes = name.as_bytes();
    match bytes.first() {
        Some(first) => *first != 46 && bytes.len() <= MAX_NAME && are_name_bytes(bytes),
        None => false,
    }
}

fn broken(why: ScriptRule) -> CommandFault
    ensures { result ≡ CommandFault.Breaks why }
{
    CommandFault::Breaks { why }
}

// The opening that is a text.
#[tactic(auto, unfolding(crate::specs::ScriptDocument::opening_of, crate::specs::ScriptDocument::text_opening_of))]
fn read_text(alloc: Global, value: &Value, text: &Value) -> Result<Opening, CommandFault>
    requires { get (codes "text") (view value.now) ≡ Some (view text.now) }
    ensures read { IfOk result (λ o. opening_of (view value.now) ≡ Some o) }
    ensures kept { IfOk result (λ o. first_broken (opening_tests (view value.now)) ≡ None) }
    ensures broken { IfErr result (FaultIs (first_broken (opening_tests (view value.now)))) }
{
    if member_count(value) != 1 {
        return Err(broken(ScriptRule::BadShape));
    }
    let Some(text) = text.as_str() else {
        return Err(broken(ScriptRule::BadShape));
    };
    if units_of(text) > MAX_UNITS {
        return Err(broken(ScriptRule::TooMany));
    }
    let text = Text::from_str(alloc, text)?;
    Ok(Opening::Text { text })
}

// The opening that is a file.
#[tactic(auto, unfolding(crate::specs::ScriptDocument::opening_of, crate::specs::ScriptDocument::file_opening_of))]
fn read_file(alloc: Global, value: &Value) -> Result<Opening, CommandFault>
    requires { get (codes "text") (view value.now) ≡ None }
    ensures read { IfOk result (λ o. opening_of (view value.now) ≡ Some o) }
    ensures kept { IfOk result (λ o. first_broken (opening_tests (view value.now)) ≡ None) }
    ensures broken { IfErr result (FaultIs (first_broken (opening_tests (view value.now)))) }
{
    if member_count(value) != 2 {
        return Err(broken(ScriptRule::BadShape));
    }
    let Some(name) = text_in(value, "file") else {
        return Err(broken(ScriptRule::BadShape));
    };
    let Some(word) = text_in(value, "encoding") else {
        return Err(broken(ScriptRule::BadShape));
    };
    let Some(encoding) = encoding_of(word) else {
        return Err(broken(ScriptRule::BadEncoding));
    };
    if !is_name(name) {
        return Err(broken(ScriptRule::BadName));
    }
    let name = Text::from_str(alloc, name)?;
    Ok(Opening::File { name, encoding })
}

/// The opening that a value is, or the lowest rule that it breaks.
pub(crate) fn read_opening(alloc: Global, value: &Value) -> Result<Opening, CommandFault>
    ensures read { IfOk result (λ o. opening_of (view value.now) ≡ Some o) }
    ensures kept { IfOk result (λ o. first_broken (opening_tests (view value.now)) ≡ None) }
    ensures broken { IfErr result (FaultIs (first_broken (opening_tests (view value.now)))) }
{
    match value.get("text") {
        Some(text) => read_text(alloc, value, text),
        None => read_file(alloc, value),
    }
}
