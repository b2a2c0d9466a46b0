//! Snapshots: states of a buffer's text that stay as they are, whatever the buffer does later.
ghost use Rattle.std.specs.Prelude.{◌≡◌, ◌<◌, Some, None, true, length, IfOk};
ghost use Rattle.points.specs.Place.{extent, span};
ghost use Rattle.machine.specs.Answers.{text_answer, read_answer};
ghost use Rattle.machine.specs.declared.reads.ReadAnswer.TheVariants as answer;
ghost use Rattle.buffer.specs.Reads.{is_own_read};

use crate::buffer::Buffer;
use crate::text::shown;
use layers::Reader;
use machine::{Read, ReadAnswer, Text};
use points::{NoMemory, Range, Units};
use std::alloc::Global;
use std::marker::Model;
use watch::Watcher;

/// The text that a buffer had at a moment, with the version of that moment. It shares the layers of the text, and reads
/// them whatever becomes of the buffer.
#[derive(Drop)]
pub struct Snapshot {
    pub(crate) reader: Reader,
    pub(crate) version: u64,
    // The hand that holds on to the place of its layers.
    pub(crate) hand: u32,
}

impl Model for Snapshot {
    ghost use Rattle.layers.specs.Reading.{VersionedText};

    ghost Value = { VersionedText };

    ghost view = { λ s. record { text = s.reader.text; version = s.version } };
}

impl<W: Watcher> Buffer<W> {
    /// Takes a snapshot. The hand holds on to its layers; the buffer stays as it is.
    pub fn take(&mut self, hand: u32) -> Result<Snapshot, NoMemory>
        requires { hand < 32 }
        ensures ok { IfOk result (λ s. s ≡ record { text = self.old.text; version = self.old.version }) }
        ensures buffer { self.new ≡ self.old }
    {
        let reader = self.text.reader()?;
        self.text.hold(hand);
        Ok(Snapshot {
            reader,
            version: self.version,
            hand,
        })
    }

    /// Ends a snapshot: its hand lets go of the layers.
    pub fn release(&mut self, snapshot: Snapshot)
        ensures { self.new ≡ self.old }
    {
        self.text.let_go(snapshot.hand);
    }
}

impl Snapshot {
    /// The version of the text.
    pub fn version(&self) -> u64
        ensures { result ≡ self.now.version }
    {
        self.version
    }

    /// A reader of the text.
    pub fn reader(&self) -> &Reader
        ensures { result.now.text ≡ self.now.text }
    {
        &self.reader
    }

    /// Answers a read that wants nothing but the text.
    pub fn read(&self, alloc: Global, read: &Read) -> Result<ReadAnswer, NoMemory>
        requires { is_own_read read.now ≡ true }
        ensures { IfOk result (λ a. read_answer self.now.text None read.now ≡ Some a) }
    {
        match read {
            Read::Size => Ok(self.size()),
            Read::Text { range, limit } => self.text(alloc, *range, *limit),
            _ => unreachable!(),
        }
    }

    /// The extent of the text, and its number of units.
    pub fn size(&self) -> ReadAnswer
        ensures { result ≡ answer.Size (extent self.now.text) (length self.now.text) }
    {
        ReadAnswer::Size {
            extent: self.reader.extent(),
            units: self.reader.len() as u64,
        }
    }

    /// The first `limit` units of the clipped range, one fewer where that would part a surrogate pair, and the number of
    /// all its units.
    pub fn text(&self, alloc: Global, range: Range, limit: u32) -> Result<ReadAnswer, NoMemory>
        ensures { IfOk result (λ a. a ≡ text_answer self.now.text limit (span self.now.text range.start range.end)) }
    {
        let mut units = Units::new(alloc);
        self.reader.units(range, &mut units)?;
        let text = String::from_utf16_lossy(alloc, shown(units.as_slice(), limit as usize))?;
        Ok(ReadAnswer::Text {
            text: Text::new(text),
            units: units.len() as u64,
        })
    }
}
