use std::alloc::{AllocError, AllocFailed};
use std::fmt;
use thiserror::Error;

/// Which rule of scripts is broken, lowest first.
#[derive(Clone, Copy, Debug, PartialEq, Eq)]
pub enum ScriptRule {
    /// The bytes aren't UTF-8, or aren't one JSON value that nests at most 127 deep.
    NotJson,
    /// A key is missing or unknown, a value has another JSON kind, or a word is unknown.
    BadShape,
    /// There are more sessions, commands, readings, finds of marks, saves, watchers or snapshots than a script may
    /// have, or the opening text is too long.
    TooMany,
    /// A snapshot is read, sent or released whose number isn't live.
    UnknownSnapshot,
    /// A snapshot is taken whose number is live.
    SnapshotTaken,
    /// A number isn't whole or is out of its range, or a range's end is before its start.
    BadNumber,
    /// An encoding is none of the four.
    BadEncoding,
    /// A text that is to be found is empty.
    EmptyNeedle,
    /// A name is none of a file, or an earlier save has it.
    BadName,
}

impl ScriptRule {
    ghost use Rattle.std.specs.Prelude.{◌≡◌};
    ghost use Rattle.script.specs.RuleName.{rule_name};

    /// The rule's name, as the line about a refused script shows it.
    pub fn name(&self) -> &'static str
        ensures { result.now ≡ rule_name self.now }
    {
        match self {
            ScriptRule::NotJson => "NotJson",
            ScriptRule::BadShape => "BadShape",
            ScriptRule::TooMany => "TooMany",
            ScriptRule::UnknownSnapshot => "UnknownSnapshot",
            ScriptRule::SnapshotTaken => "SnapshotTaken",
            ScriptRule::BadNumber => "BadNumber",
            ScriptRule::BadEncoding => "BadEncoding",
            ScriptRule::EmptyNeedle => "EmptyNeedle",
            ScriptRule::BadName => "BadName",
        }
    }
}

impl fmt::Display for ScriptRule {
    ghost use Rattle.std.specs.Prelude.{Some};
    ghost use Rattle.script.specs.RuleName.{rule_name};

    ghost output = { λ rule. Some (rule_name rule) };

    fn fmt<W: fmt::Write>(&self, f: &mut fmt::Formatter<W>) -> fmt::Result {
        f.write_str(self.name())
    }
}

impl std::error::Error for ScriptRule {}

/// Why a script wasn't read.
#[derive(Clone, Copy, Debug, PartialEq, Eq, Error)]
pub enum ScriptRefusal {
    /// The first place that breaks a rule, with the lowest rule that it breaks. The place of the document
    /// itself is session 0, command 0.
    #[error("session {session} command {command}: {why}")]
    Refused {
        session: u32,
        command: u32,
        why: ScriptRule,
    },
    #[error("out of memory")]
    NoMemory,
}

impl From<AllocError> for ScriptRefusal {
    ghost use Rattle.std.specs.Prelude.{◌≡◌};
    ghost use Rattle.script.specs.declared.refusal.ScriptRefusal.TheVariants.{NoMemory};

    ghost from_gives = { λ _ refusal. refusal ≡ NoMemory };

    fn from(_error: AllocError) -> Self {
        ScriptRefusal::NoMemory
    }
}

impl<T: Drop> From<AllocFailed<T>> for ScriptRefusal {
    ghost use Rattle.std.specs.Prelude.{◌≡◌};
    ghost use Rattle.script.specs.declared.refusal.ScriptRefusal.TheVariants.{NoMemory};

    ghost from_gives = { λ _ refusal. refusal ≡ NoMemory };

    fn from(_failed: AllocFailed<T>) -> Self {
        ScriptRefusal::NoMemory
    }
}
