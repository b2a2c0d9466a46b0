//! The trusted edge: standard input as a source, and standard output as a sink. They tell nothing of
//! the bytes that pass. Each counts its faults from 0 on: a call raises the count exactly where it fails.
ghost use Rattle.std.specs.Prelude.{◌≡◌, ◌≤◌, length, nat_lt, None, IfOk, OnOk, OnErr};
ghost use Rattle.outer.specs.Count.{Rose, counted};

use outer::{Failed, Sink, Source};
use std::io;

/// A source over a reader.
#[derive(Debug, Drop)]
pub(crate) struct Reading<R> {
    reader: R,
    pub(crate) faults: u64,
}

impl<R> Reading<R> {
    pub(crate) fn new(reader: R) -> Self
        ensures { result.faults ≡ 0 }
    {
        Reading { reader, faults: 0 }
    }

    /// Whether a read failed.
    pub(crate) fn has_failed(&self) -> bool
        ensures { result ≡ nat_lt 0 self.now.faults }
    {
        self.faults > 0
    }
}

impl<R: io::Read> Source for Reading<R> {
    ghost left = { λ _. None };

    ghost faults = { λ r. r.faults };

    fn read(&mut self, into: &mut [u8]) -> Result<usize, Failed>
        ensures count { self.old.faults ≤ self.new.faults }
        ensures cause { OnErr result (Rose self.old.faults self.new.faults) }
        ensures within { IfOk result (λ n. n ≤ length into.new) }
        ensures ok_count { OnOk result (self.new.faults ≡ self.old.faults) }
        ensures err_count { OnErr result (self.new.faults ≡ counted self.old.faults) }
    {
        match self.reader.read(into) {
            Ok(count) => Ok(count),
            Err(_) => {
                self.faults = self.faults.saturating_add(1);
                Err(Failed)
            }
        }
    }
}

/// A sink over a writer.
#[derive(Debug, Drop)]
pub(crate) struct Writing<W> {
    writer: W,
    pub(crate) faults: u64,
}

impl<W> Writing<W> {
    pub(crate) fn new(writer: W) -> Self
        ensures { result.faults ≡ 0 }
    {
        Writing { writer, faults: 0 }
    }

    /// Whether a put or a flush failed.
    pub(crate) fn has_failed(&self) -> bool
        ensures { result ≡ nat_lt 0 self.now.faults }
    {
        self.faults > 0
    }

    #[cfg(test)]
    pub(crate) fn into_writer(self) -> W {
        let Writing { writer, faults: _ } = self;
        writer
    }
}

impl<W: io::Write> Sink for Writing<W> {
    ghost taken = { λ _. None };

    ghost faults = { λ w. w.faults };

    fn put(&mut self, bytes: &[u8]) -> Result<(), Failed>
        ensures count { self.old.faults ≤ self.new.faults }
        ensures cause { OnErr result (Rose self.old.faults self.new.faults) }
        ensures ok_count { OnOk result (self.new.faults ≡ self.old.faults) }
        ensures err_count { OnErr result (self.new.faults ≡ counted self.old.faults) }
    {
        match self.writer.write_all(bytes) {
            Ok(()) => Ok(()),
            Err(_) => {
                self.faults = self.faults.saturating_add(1);
                Err(Failed)
            }
        }
    }

    fn flush(&mut self) -> Result<(), Failed>
        ensures count { self.old.faults ≤ self.new.faults }
        ensures cause { OnErr result (Rose self.old.faults self.new.faults) }
        ensures ok_count { OnOk result (self.new.faults ≡ self.old.faults) }
        ensures err_count { OnErr result (self.new.faults ≡ counted self.old.faults) }
    {
        match self.writer.flush() {
            Ok(()) => Ok(()),
            Err(_) => {
                self.faults = self.faults.saturating_add(1);
                Err(Failed)
            }
        }
    }
}
