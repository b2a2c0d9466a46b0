//! A layer above the base: what was taken out of the text below, and what was put in.
use crate::spot::Spot;
use line_text::LineText;

/// One change of a layer: it took out the units of the text below from `old` up to `old_end`, and put in
/// those that stand from `new` up to `new_end` in the text that the layer gives.
#[derive(Clone, Copy, Debug)]
pub struct Cut {
    pub(crate) old: Spot,
    pub(crate) old_end: Spot,
    pub(crate) new: Spot,
    pub(crate) new_end: Spot,
    // Where the units that it put in begin in the text of the overlay.
    pub(crate) text: u32,
}

/// A layer above the base: its changes in order, and what they put in, one behind the other.
#[derive(Debug, Drop)]
pub struct Overlay {
    pub(crate) cuts: Vec<Cut>,
    pub(crate) text: LineText,
    // Where the text that it gives ends.
    pub(crate) end: Spot,
    // How many units the texts of its changes have, of both sides.
    pub(crate) units: u64,
}
