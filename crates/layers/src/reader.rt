ghost use Rattle.std.specs.Prelude.{◌≡◌, ◌<◌, ◌≤◌, ◌↔◌, ◌++◌, length, slice_range, string_bytes, IfOk, IfSome, IsNone, OnOk, OnErr};
ghost use Rattle.points.specs.Text.{text_of};
ghost use Rattle.points.specs.Place.{extent, point_at, line_of, clip, clipped_offset};
ghost use Rattle.points.specs.declared.limits.TheConstants.{MAX_UNITS};

use chains::{Chain, Pieces};
use points::{NoMemory, Point, Range, Units};
use std::alloc::Global;
use std::marker::Model;

/// A text and its version, read through the layers that it shares with a shelf. Contracts see the text and the version.
#[derive(Drop)]
pub struct Reader {
    pub(crate) alloc: Global,
    pub(crate) layers: Chain,
    pub(crate) version: u64,
}

impl Model for Reader {
    ghost use Rattle.chains.specs.Layered.{whole_text};
    ghost use Rattle.layers.specs.Reading.{VersionedText};

    ghost Value = { VersionedText };

    ghost view = { λ r. record { text = whole_text r.layers; version = r.version } };
}

impl Reader {
    /// How many units there are, at most [`points::MAX_UNITS`].
    pub fn len(&self) -> usize
        ensures value { result ≡ length self.now.text }
        ensures short { result ≤ MAX_UNITS }
    {
        self.layers.len()
    }

    /// The end of the text.
    pub fn extent(&self) -> Point
        ensures { result ≡ extent self.now.text }
    {
        self.layers.extent()
    }

    /// The point at an offset.
    pub fn point_at(&self, offset: usize) -> Point
        requires { offset ≤ length self.now.text }
        ensures { result ≡ point_at self.now.text offset }
    {
        self.layers.point_at(offset)
    }

    /// The point that a point is clipped to: outside line endings and surrogate pairs, and not past the end.
    pub fn clip(&self, point: Point) -> Point
        ensures { result ≡ clip self.now.text point }
    {
        self.layers.clip(point)
    }

    /// The range of a row without its ending, where the text has the row.
    pub fn line_range(&self, row: u32) -> Option<Range>
        ensures outside { IsNone result ↔ ((extent self.now.text).row < row) }
        ensures start { IfSome result (λ range. range.start ≡ record { row = row; column = 0 }) }
        ensures end { IfSome result (λ range. range.end ≡ record { row = row; column = length (line_of self.now.text row) }) }
    {
        self.layers.line_range(row)
    }

    /// The units between the clipped ends of a range, one stretch behind the other, lent.
    pub fn pieces(&self, range: Range) -> Pieces<'_>
        ensures { result ≡ slice_range self.entry.now.text (clipped_offset self.entry.now.text range.start)
            (clipped_offset self.entry.now.text range.end) }
    {
        self.layers.pieces_in(range)
    }

    /// Puts the units between the clipped ends of a range at the end of `into`. A refusal leaves it as it was.
    pub fn units(&self, range: Range, into: &mut Units) -> Result<(), NoMemory>
        ensures ok { OnOk result (into.new ≡ into.old ++ slice_range self.now.text (clipped_offset self.now.text range.start)
            (clipped_offset self.now.text range.end)) }
        ensures err { OnErr result (into.new ≡ into.old) }
    {
        self.layers.units_in(self.alloc, range, into)
    }

    /// The version of the text.
    pub fn version(&self) -> u64
        ensures { result ≡ self.now.version }
    {
        self.version
    }

    /// An equal reader, which shares every layer. To share a layer once more can be refused.
    pub fn try_clone(&self) -> Result<Self, NoMemory>
        ensures { IfOk result (λ reader. reader ≡ self.now) }
    {
        Ok(Reader {
            alloc: self.alloc,
            layers: self.layers.try_clone()?,
            version: self.version,
        })
    }

    /// The text, with U+FFFD in place of each surrogate that lacks its partner.
    pub fn to_text(&self) -> Result<String, NoMemory>
        ensures { IfOk result (λ text. string_bytes text ≡ text_of self.now.text) }
    {
        self.layers.to_text(self.alloc)
    }
}

// A reader may be handed to another thread, and shared with it.
fn _is_shared() {
    fn goes_to_threads<T: Send + Sync>() {}
    goes_to_threads::<Reader>();
}
