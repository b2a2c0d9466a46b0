//! The limits of a script, each once.

/// The most sessions.
pub const MAX_SESSIONS: usize = 8;

/// The most commands, over all sessions.
pub const MAX_COMMANDS: usize = 65_536;

/// The most commands that read the text, and reads of snapshots, together.
pub const MAX_READINGS: usize = 4_096;

/// The most saves.
pub const MAX_SAVES: usize = 64;

/// The most commands that ask for the marks at a range.
pub const MAX_FINDS: usize = 256;

/// The most commands that begin to watch.
pub const MAX_WATCHES: usize = 64;

/// The most bytes of the name of a file.
pub const MAX_NAME: usize = 64;

/// The most UTF-16 units that one command or read shows.
pub const MAX_SHOWN: u32 = 65_536;

/// The most hits that one read shows.
pub const MAX_HITS: u32 = 1_000;

/// The greatest id of a mark or a watcher, and the greatest number of a snapshot.
pub const MAX_ID: u32 = u32::MAX;
