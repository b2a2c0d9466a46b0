//! What a command line asks for.
use crate::name::Name;
use thiserror::Error;

/// A command line.
#[derive(Debug, Drop)]
pub enum CommandLine {
    /// Run the script that the input holds, with so many workers.
    Run {
        workers: u32,
    },
    /// Check the transcript in the one file for the script in the other.
    Check {
        script: Name,
        transcript: Name,
    },
    /// Run the script of one session that is drawn from `first`, with so many edits and workers, and sum it up.
    Bulk {
        first: u32,
        edits: u32,
        workers: u32,
    },
    /// Make the script that is drawn from `first`, with so many sessions of so many edits.
    Make {
        first: u32,
        edits: u32,
        sessions: u32,
    },
}

/// Why words are no command line.
#[derive(Clone, Copy, Debug, PartialEq, Eq, Error)]
pub enum WordsRefusal {
    /// They aren't one.
    #[error("no command line")]
    Usage,
    /// There was no memory to read them.
    #[error("out of memory")]
    NoMemory,
}
