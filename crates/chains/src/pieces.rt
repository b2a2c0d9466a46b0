//! The units of a range of a text in layers, one stretch behind the other, lent.
ghost use Rattle.std.specs.Prelude.{◌≡◌, ◌+◌, ◌<◌, ◌≤◌, [], ◌++◌, List, ℕ, Option, length, slice_range, MatchOption};
ghost use Rattle.std.specs.Iterator.{at_most};

use crate::chain::Chain;
use std::marker::Model;

/// The units of a range, one stretch behind the other. No stretch is empty.
#[derive(Drop)]
pub struct Pieces<'a> {
    pub(crate) chain: &'a Chain,
    pub(crate) at: u32,
    pub(crate) to: u32,
}

impl<'a> Model for Pieces<'a> {
    ghost use Rattle.std.specs.Prelude.{List, ℕ, ◌≤◌, length, slice_range};
    ghost use Rattle.chains.specs.Layered.{whole_text};

    ghost Value = { List ℕ };

    ghost view = { λ p. slice_range (whole_text p.chain.now) p.at p.to };

    ghost invariant = { λ p. (p.at ≤ p.to) × (p.to ≤ length (whole_text p.chain.now)) };
}

impl<'a> Iterator for Pieces<'a> {
    type Item = &'a [u16];

    ghost next_gives = { λ s x t. MatchOption x ((s ≡ []) × (t ≡ [])) (λ units. (0 < length units.now) × (s ≡ units.now ++ t)) };

    ghost remaining = { λ s. at_most (length s) };

    fn next(&mut self) -> Option<&'a [u16]> {
        if self.at == self.to {
            return None;
        }
        let piece = self.chain.stretch(self.at, self.to).part.as_slice();
        self.at += piece.len() as u32;
        Some(piece)
    }
}
