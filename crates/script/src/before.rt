//! What stood before a command, and the rules that a command breaks by it.
ghost use Rattle.std.specs.Prelude.{◌≡◌, ◌+◌, ◌++◌, ◌&&◌, ◌||◌, not, false, nat_lt, length, codes, IfOk, OnOk};
ghost use Rattle.std.specs.List.{list_all};
ghost use Rattle.serde_json.specs.View.{view};
ghost use Rattle.script.specs.Parts.{count_items};
ghost use Rattle.script.specs.declared.before.CommandFault.TheVariants.{NoMemory};
ghost use Rattle.script.specs.Reading.{IsFew, counted};
ghost use Rattle.script.specs.Rules.{at_start, next, is_again, is_name, live_after, names_in, reads_in, is_do, is_live, is_too_many, needs_live, snapshot_in, readings_in};

use crate::limits::{MAX_COMMANDS, MAX_FINDS, MAX_ID, MAX_READINGS, MAX_SAVES, MAX_WATCHES};
use crate::parts::{is_do, item_count};
use crate::refusal::ScriptRule;
use crate::saves::{are_names, is_again};
use crate::snapshots::Live;
use machine::Text;
use points::MAX_HANDS;
use serde_json::Value;
use std::alloc::{AllocError, Global};

/// Why a command isn't taken into the script.
#[derive(Drop)]
pub(crate) enum CommandFault {
    /// The lowest rule that it breaks.
    Breaks { why: ScriptRule },
    NoMemory,
}

impl From<AllocError> for CommandFault {
    ghost from_gives = { λ _ fault. fault ≡ NoMemory };

    fn from(_error: AllocError) -> Self {
        CommandFault::NoMemory
    }
}

/// What stood before a command: how many commands, readings, finds of marks and watchers; the names of the saves; and which
/// snapshots are live, and how many were at once at most.
#[derive(Drop)]
pub(crate) struct Before {
    pub(crate) commands: usize,
    readings: usize,
    finds: usize,
    watches: usize,
    names: Vec<Text>,
    peak: usize,
    live: Live,
}

// How many reads a `read` or a `send` has.
fn read_count(value: &Value) -> usize
    ensures { result ≡ count_items (reads_in (view value.now)) }
{
    if !is_do(value, "read") && !is_do(value, "send") {
        return 0;
    }
    match value.get("reads") {
        Some(reads) => item_count(reads),
        None => 0,
    }
}

/// The number of the snapshot that the value names.
pub(crate) fn snapshot_in(value: &Value) -> Option<u32>
    ensures { result ≡ snapshot_in (view value.now) }
{
    match value.get("snapshot") {
        Some(number) => match number.as_u64() {
            Some(n) if n <= MAX_ID as u64 => Some(n as u32),
            _ => None,
        },
        None => None,
    }
}

// What is live after the command.
fn go_on(live: &mut Live, value: &Value) -> Result<(), AllocError>
    ensures { IfOk result (λ _. live.new ≡ live_after live.old (view value.now)) }
{
    let Some(number) = snapshot_in(value) else {
        return Ok(());
    };
    if is_do(value, "take") {
        return live.take(number);
    }
    if is_do(value, "send") || is_do(value, "release") {
        live.end(number);
    }
    Ok(())
}

// Puts names behind those that are there.
fn add_names(there: &mut Vec<Text>, names: Vec<Text>) -> Result<(), AllocError>
    ensures { OnOk result (there.new.items ≡ there.old.items ++ names.items) }
{
    for name in names {
        there.push(name)?;
    }
    Ok(())
}

impl Before {
    /// What stands before the first command.
    pub(crate) fn at_start(alloc: Global) -> Before
        ensures empty { counted result ≡ at_start }
        ensures few { IsFew result }
    {
        Before {
            commands: 0,
            readings: 0,
            finds: 0,
            watches: 0,
            names: Vec::new(alloc),
            peak: 0,
            live: Live::none(alloc),
        }
    }

    // Whether the command brings too many readings.
    fn has_many_readings(&self, value: &Value) -> bool
        requires few { IsFew self.now }
        ensures { result ≡ nat_lt MAX_READINGS (self.now.readings + readings_in (view value.now)) }
    {
        let room = MAX_READINGS - self.readings;
        let shows = (is_do(value, "text") || is_do(value, "marks")) as usize;
        shows > room || read_count(value) > room - shows
    }

    // Whether the command brings too many hands.
    fn has_many_hands(&self, value: &Value) -> bool
        ensures { result ≡ (is_do (codes "take") (view value.now) && nat_lt MAX_HANDS (length self.now.live + 1)) }
    {
        is_do(value, "take") && self.live.count() >= MAX_HANDS
    }

    /// Whether there is too much of something with the command, which has so many saves.
    pub(crate) fn is_too_many(&self, value: &Value, saves: usize) -> bool
        requires few { IsFew self.now }
        requires saves { saves ≡ length (names_in (reads_in (view value.now))) }
        ensures { result ≡ is_too_many (counted self.now) (view value.now) }
    {
        self.commands >= MAX_COMMANDS
            || self.has_many_readings(value)
            || saves > MAX_SAVES - self.names.len()
            || self.finds + is_do(value, "marks") as usize > MAX_FINDS
            || self.watches + is_do(value, "watch") as usize > MAX_WATCHES
            || self.has_many_hands(value)
    }

    // Whether the number that the command names is live.
    fn is_live(&self, value: &Value) -> bool
        ensures { result ≡ is_live (counted self.now) (view value.now) }
    {
        match snapshot_in(value) {
            Some(number) => self.live.has(number),
            None => false,
        }
    }

    /// Whether the command needs a number to be live that isn't.
    pub(crate) fn lacks_snapshot(&self, value: &Value) -> bool
        ensures { result ≡ (needs_live (view value.now) && not (is_live (counted self.now) (view value.now))) }
    {
        (is_do(value, "read") || is_do(value, "send") || is_do(value, "release"))
            && !self.is_live(value)
    }

    /// Whether the command takes a number that is live.
    pub(crate) fn takes_again(&self, value: &Value) -> bool
        ensures { result ≡ (is_do (codes "take") (view value.now) && is_live (counted self.now) (view value.now)) }
    {
        is_do(value, "take") && self.is_live(value)
    }

    /// Whether one of these isn't the name of a file, was saved under before or stands twice among them.
    pub(crate) fn refuses_names(&self, names: &[Text]) -> bool
        ensures { result ≡ (not (list_all is_name names.now) || is_again (counted self.now).names names.now) }
    {
        !are_names(names) || is_again(self.names.as_slice(), names)
    }

    /// Counts one more command, which saves under these names and with which there isn't too much of anything.
    pub(crate) fn add(&mut self, value: &Value, names: Vec<Text>) -> Result<(), AllocError>
        requires few { IsFew self.now }
        requires names { names.items ≡ names_in (reads_in (view value.now)) }
        requires room { is_too_many (counted self.now) (view value.now) ≡ false }
        ensures counted { IfOk result (λ _. counted self.new ≡ next (counted self.old) (view value.now)) }
        ensures few { IfOk result (λ _. IsFew self.new) }
    {
        go_on(&mut self.live, value)?;
        add_names(&mut self.names, names)?;
        self.commands += 1;
        self.readings += (is_do(value, "text") || is_do(value, "marks")) as usize;
        self.readings += read_count(value);
        self.finds += is_do(value, "marks") as usize;
        self.watches += is_do(value, "watch") as usize;
        self.peak = self.peak.max(self.live.count());
        Ok(())
    }
}
