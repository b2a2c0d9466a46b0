//! A snapshot, and what is known of its text.
ghost use Rattle.points.specs.Text.{IsWellFormed};

use crate::shared::Hand;
use layers::Reader;

/// A snapshot: a text and its version as a take saw them, and the hand that it uses. No surrogate of the text lacks its
/// partner. It must be released, or retired.
pub struct Snapshot {
    pub hand: Hand,
    pub reader: Reader,
    pub version: u64,
    pub ghost whole: { ∥ IsWellFormed reader.text ∥₁ },
}

impl Snapshot {
    /// Spends the snapshot without a call. Its hand stays out for good.
    pub fn retire(self) {
        let Snapshot {
            hand,
            reader,
            version: _,
        } = self;
        drop(reader);
        hand.retire();
    }
}
