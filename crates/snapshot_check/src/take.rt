//! A take as it stands in the documents of a script and a transcript.

ghost use Rattle.std.specs.Prelude.{◌≡◌};

use machine::{Command, Reply};
use std::marker::Model;

/// A take, with its session's commands and replies.
#[derive(Drop)]
pub struct Take<'a> {
    /// Its session, counted from 1.
    pub(crate) session: u32,
    /// Its place in it, counted from 0.
    pub(crate) place: usize,
    pub(crate) commands: &'a [Command],
    pub(crate) replies: &'a [Reply],
    /// How many patterns are read before it.
    pub(crate) patterns: usize,
    /// The number of its snapshot.
    pub(crate) snapshot: u32,
    /// The version that it shows.
    pub(crate) version: u64,
    /// The session's last number before it, or 0.
    pub(crate) last: u64,
    /// The session's next number.
    pub(crate) next: Option<u64>,
}

impl<'a> Model for Take<'a> {
    ghost use Rattle.std.specs.Prelude.{◌≡◌, ◌+◌, ◌<◌, ◌^◌, take, drop};
    ghost use Rattle.std.specs.List.Sorted.{IsStrictlyIncreasing};
    ghost use Rattle.machine.specs.Lawful.{numbers, last_number};
    ghost use Rattle.snapshot_check.specs.Takes.{Spot, first_number};

    ghost Value = { Spot };

    ghost view = { λ t. record { session = t.session; place = t.place; commands = t.commands.now; replies = t.replies.now; patterns = t.patterns; snapshot = t.snapshot; version = t.version } };

    ghost invariant = { λ t. record {
      small : t.place + 1 < 2 ^ 32;
      last : t.last ≡ last_number (numbers (take t.place t.replies.now));
      next : t.next ≡ first_number (numbers (drop (t.place + 1) t.replies.now));
      rising : IsStrictlyIncreasing (numbers t.replies.now);
    } };
}

impl<'a> Take<'a> {
    /// The version that it shows.
    pub(crate) fn version(&self) -> u64
        ensures { result ≡ self.now.version }
    {
        self.version
    }
}
