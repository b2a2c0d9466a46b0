//! How a run ends: its status, the exit status of the program, and the line on standard error.
ghost use Rattle.std.specs.Prelude.{◌≡◌, ◌↔◌, Some, None, false, IfSome};
ghost use Rattle.buffer_cli.specs.Exit.{exit_code, fault_text, has_line};

use machine::Place;
use script::ScriptRule;
use std::fmt;

/// How a top call ended.
#[derive(Clone, Copy, Debug, PartialEq, Eq)]
pub enum Status {
    /// The whole result was written.
    Done,
    /// The transcript that was checked isn't lawful, and this is the first place where it fails. That was written.
    Unlawful {
        place: Place,
    },
    /// The words aren't a command line.
    Usage,
    /// The script breaks a rule, first at this place. Sessions and commands are counted from 1;
    /// the place of the document itself is session 0, command 0.
    ScriptRefused {
        session: u32,
        command: u32,
        why: ScriptRule,
    },
    /// The input failed.
    ReadFault,
    /// The output failed. It may hold a part of the result.
    WriteFault,
    /// A file that the script saves couldn't be made, written or put in its place.
    SaveFault,
    /// The pattern of a read at this place was refused.
    PatternRefused {
        session: u32,
        command: u32,
    },
    /// The input, or a file that was read, has more than 2^26 bytes.
    InputTooLong,
    /// There was no memory for it.
    NoMemory,
    /// A file couldn't be read: the one that the script opens, or one that is checked.
    LoadFault,
    /// The text of the file that the script opens has more than 2^24 units.
    TextTooLong,
}

impl Status {
    /// The exit status of the program.
    pub fn code(self) -> u8
        ensures { result ≡ exit_code self }
    {
        match self {
            Status::Done => 0,
            Status::Unlawful { .. } => 1,
            Status::Usage => 2,
            Status::ScriptRefused { .. } => 3,
            Status::ReadFault => 4,
            Status::WriteFault => 5,
            Status::SaveFault => 6,
            Status::PatternRefused { .. } => 7,
            Status::InputTooLong => 8,
            Status::NoMemory => 9,
            Status::LoadFault => 10,
            Status::TextTooLong => 11,
        }
    }

    /// What the program prints on standard error, if anything.
    pub fn fault_line(self) -> Option<Fault>
        ensures none { (result ≡ None) ↔ (has_line self ≡ false) }
        ensures some { IfSome result (λ fault. fault.status ≡ self) }
    {
        match self {
            Status::Done | Status::Unlawful { .. } => None,
            status => Some(Fault { status }),
        }
    }
}

/// The one line that tells a user why a run ended.
#[derive(Clone, Copy, Debug, PartialEq, Eq)]
pub struct Fault {
    status: Status,
}

impl fmt::Display for Fault {
    ghost output = { λ fault. Some (fault_text fault.status) };

    fn fmt<W: fmt::Write>(&self, f: &mut fmt::Formatter<W>) -> fmt::Result {
        match self.status {
            Status::Done | Status::Unlawful { .. } => Ok(()),
            Status::Usage => f.write_str(
                "usage: run [--workers N] | bulk FIRST EDITS WORKERS | check SCRIPT TRANSCRIPT \
                 | make FIRST EDITS SESSIONS",
            ),
            Status::ScriptRefused {
                session,
                command,
                why,
            } => write!(
                f,
                "script refused: session {session} command {command}: {why}"
            ),
            Status::ReadFault => f.write_str("cannot read the input"),
            Status::WriteFault => f.write_str("cannot write the output"),
            Status::SaveFault => f.write_str("cannot save"),
            Status::PatternRefused { session, command } => {
                write!(f, "pattern refused: session {session} command {command}")
            }
            Status::InputTooLong => f.write_str("input too long"),
            Status::NoMemory => f.write_str("out of memory"),
            Status::LoadFault => f.write_str("cannot load"),
            Status::TextTooLong => f.write_str("text too long"),
        }
    }
}
