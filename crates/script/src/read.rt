//! From bytes to a script.
ghost use Rattle.std.specs.Prelude.{◌≡◌, false, Some, None, IfOk, IfErr};
ghost use Rattle.serde_json.specs.View.{view, items_view};
ghost use Rattle.script.specs.ScriptDocument.{commands_of, session_in, head_of, script_of, document, script_in, script_place, IsRefusalAt};
ghost use Rattle.script.specs.Rules.{at_start, command_tests, first_broken, is_version_one, place_in_session, built_place};
ghost use Rattle.script.specs.Reading.{Gives, IsFew, IsRead, FaultIs, counted, one_session};
ghost use Rattle.script.specs.Limits.{IsWithinLimits};

use crate::before::{Before, CommandFault};
use crate::commands::command_of;
use crate::opening::read_opening;
use crate::parts::{Misfit, item_count, member, member_count};
use crate::reads::{has_needles, unread_rule};
use crate::refusal::{ScriptRefusal, ScriptRule};
use crate::saves::names_in;
use crate::shape::is_misshapen;
use machine::{Command, Opening, Script, Sequence};
use serde_json::Value;
use std::alloc::Global;

// A command that is read and counted, or the lowest rule that it breaks.
fn read_command(alloc: Global, before: &mut Before, value: &Value) -> Result<Command, CommandFault>
    requires few { IsFew before.now }
    ensures read { IfOk result (λ c. IsRead before.old before.new (view value.now) c) }
    ensures few { IfOk result (λ c. IsFew before.new) }
    ensures broken { IfErr result (FaultIs (first_broken (command_tests false (counted before.old) (view value.now)))) }
{
    if is_misshapen(value) {
        return Err(CommandFault::Breaks {
            why: ScriptRule::BadShape,
        });
    }
    let names = names_in(alloc, value)?;
    if before.is_too_many(value, names.len()) {
        return Err(CommandFault::Breaks {
            why: ScriptRule::TooMany,
        });
    }
    if before.lacks_snapshot(value) {
        return Err(CommandFault::Breaks {
            why: ScriptRule::UnknownSnapshot,
        });
    }
    if before.takes_again(value) {
        return Err(CommandFault::Breaks {
            why: ScriptRule::SnapshotTaken,
        });
    }
    let command = match command_of(alloc, value) {
        Ok(command) => command,
        Err(Misfit::Shape) => {
            let why = unread_rule(alloc, value)?;
            return Err(CommandFault::Breaks { why });
        }
        Err(Misfit::NoMemory) => return Err(CommandFault::NoMemory),
    };
    if !has_needles(&command) {
        return Err(CommandFault::Breaks {
            why: ScriptRule::EmptyNeedle,
        });
    }
    if before.refuses_names(names.as_slice()) {
        return Err(CommandFault::Breaks {
            why: ScriptRule::BadName,
        });
    }
    before.add(value, names)?;
    Ok(command)
}

// The commands of the first session, one after another. So a command's number is one more than how many were
// counted before it.
fn commands_of(alloc: Global, items: &[Value]) -> Result<Vec<Command>, ScriptRefusal>
    ensures read { IfOk result (λ cs. commands_of (items_view items.now) ≡ Some cs.items) }
    ensures kept { IfOk result (λ cs. place_in_session false 1 1 at_start (items_view items.now) ≡ None) }
    ensures refused { IfErr result (IsRefusalAt (place_in_session false 1 1 at_start (items_view items.now))) }
{
    let mut before = Before::at_start(alloc);
    let mut commands = Vec::new(alloc);
    for item in items {
        let number = before.commands as u32 + 1;
        match read_command(alloc, &mut before, item) {
            Ok(command) => commands.push(command)?,
            Err(CommandFault::Breaks { why }) => return Err(ScriptRefusal::Refused {
                session: 1,
                command: number,
                why,
            }),
            Err(CommandFault::NoMemory) => return Err(ScriptRefusal::NoMemory),
        }
    }
    Ok(commands)
}

// The commands of the one session.
fn session_in<'v>(value: &'v Value) -> Result<&'v [Value], Misfit>
    ensures { Gives (λ items. items_view items.now) result (session_in (view value.now)) }
{
    if item_count(value) != 1 {
        return Err(Misfit::Shape);
    }
    let session = value.get(0usize).ok_or(Misfit::Shape)?;
    let items = session.as_array().ok_or(Misfit::Shape)?;
    Ok(items.as_slice())
}

// The version is the number 1.
fn is_version_one(value: &Value) -> bool
    ensures { result ≡ is_version_one (view value.now) }
{
    match value.get("version") {
        Some(version) => version.as_u64() == Some(1),
        None => false,
    }
}

// What a document has beside its version: its opening, and the commands of its session.
#[derive(Drop)]
struct Head<'v> {
    opening: &'v Value,
    commands: &'v [Value],
}

#[tactic(auto, unfolding(crate::specs::ScriptDocument::head_of))]
fn head_of<'v>(value: &'v Value) -> Result<Head<'v>, Misfit>
    ensures { Gives (λ h. (view h.opening.now, items_view h.commands.now)) result (head_of (view value.now)) }
{
    if member_count(value) != 3 || !is_version_one(value) {
        return Err(Misfit::Shape);
    }
    let opening = member(value, "open")?;
    let commands = session_in(member(value, "sessions")?)?;
    Ok(Head { opening, commands })
}

// The script of these parts.
fn script_from(
    alloc: Global,
    opening: Opening,
    commands: Vec<Command>,
) -> Result<Script, ScriptRefusal>
    ensures made { IfOk result (λ s. s ≡ one_session opening commands.items) }
    ensures fails { IfErr result (λ r. r ≡ ScriptRefusal.NoMemory) }
{
    let mut sessions = Vec::new(alloc);
    sessions.push(Sequence::new(commands))?;
    Ok(Script {
        version: 1,
        opening,
        sessions: Sequence::new(sessions),
    })
}

// A refusal at the document itself.
fn refused(why: ScriptRule) -> ScriptRefusal
    ensures { result ≡ ScriptRefusal.Refused 0 0 why }
{
    ScriptRefusal::Refused {
        session: 0,
        command: 0,
        why,
    }
}

// The script of a value: the document itself is looked at first, and then its commands.
fn read_value(alloc: Global, value: &Value) -> Result<Script, ScriptRefusal>
    ensures read { IfOk result (λ s. script_of (view value.now) ≡ Some s) }
    ensures refused { IfErr result (IsRefusalAt (built_place (view value.now))) }
{
    let head = match head_of(value) {
        Ok(head) => head,
        Err(Misfit::Shape) => return Err(refused(ScriptRule::BadShape)),
        Err(Misfit::NoMemory) => return Err(ScriptRefusal::NoMemory),
    };
    let opening = match read_opening(alloc, head.opening) {
        Ok(opening) => opening,
        Err(CommandFault::Breaks { why }) => return Err(refused(why)),
        Err(CommandFault::NoMemory) => return Err(ScriptRefusal::NoMemory),
    };
    match commands_of(alloc, head.commands) {
        Ok(commands) => script_from(alloc, opening, commands),
        Err(refusal) => Err(refusal),
    }
}

/// Reads a script: one JSON value in UTF-8. Sessions and commands are counted from 1; the place of the
/// document itself is session 0, command 0.
pub fn read_script(alloc: Global, bytes: &[u8]) -> Result<Script, ScriptRefusal>
    ensures read { IfOk result (λ s. script_in bytes.now ≡ Some s) }
    ensures limits { IfOk result (λ s. IsWithinLimits s) }
    ensures kept { IfOk result (λ s. script_place bytes.now ≡ None) }
    ensures refused { IfErr result (IsRefusalAt (script_place bytes.now)) }
{
    let value = match Value::from_slice(alloc, bytes) {
        Ok(value) => value,
        Err(error) if error.is_memory() => return Err(ScriptRefusal::NoMemory),
        Err(_) => return Err(refused(ScriptRule::NotJson)),
    };
    read_value(alloc, &value)
}
