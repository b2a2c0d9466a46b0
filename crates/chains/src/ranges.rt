//! What stands between the clipped ends of a range of a text in layers.
ghost use Rattle.std.specs.Prelude.{◌≡◌, ◌++◌, slice_range, OnOk, OnErr};
ghost use Rattle.points.specs.Place.{extent, clipped_offset};
ghost use Rattle.chains.specs.Layered.{whole_text};

use crate::chain::Chain;
use crate::pieces::Pieces;
use points::{NoMemory, Point, Range, Units};
use std::alloc::Global;

impl Chain {
    /// The end of the text, as a point.
    pub fn extent(&self) -> Point
        ensures { result ≡ extent (whole_text self.now) }
    {
        self.end().point
    }

    /// The units between the clipped ends of a range, one stretch behind the other, lent.
    pub fn pieces_in(&self, range: Range) -> Pieces<'_>
        ensures { result ≡ slice_range (whole_text self.entry.now) (clipped_offset (whole_text self.entry.now) range.start)
            (clipped_offset (whole_text self.entry.now) range.end) }
    {
        let (from, to) = self.span(range);
        self.pieces(from.offset as usize, to.offset as usize)
    }

    /// Puts the units between the clipped ends of a range at the end of `into`. A refusal leaves it as it was.
    pub fn units_in(&self, alloc: Global, range: Range, into: &mut Units) -> Result<(), NoMemory>
        ensures ok { OnOk result (into.new ≡ into.old ++ slice_range (whole_text self.now) (clipped_offset (whole_text self.now) range.start)
            (clipped_offset (whole_text self.now) range.end)) }
        ensures err { OnErr result (into.new ≡ into.old) }
    {
        let (from, to) = self.span(range);
        self.units(alloc, from.offset as usize, to.offset as usize, into)
    }
}
