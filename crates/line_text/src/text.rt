//! A text: its units, and beside them the starts of its rows.
ghost use Rattle.std.specs.Prelude.{◌≡◌, ◌≤◌, length, slice_range, string_bytes, IfOk};
ghost use Rattle.points.specs.Text.{text_of};

use crate::rows::Rows;
use points::{MAX_UNITS, NoMemory};
use std::marker::Model;

/// A text: a list of at most [`MAX_UNITS`] UTF-16 units, with the starts of its rows.
#[derive(Debug, Drop)]
pub struct LineText {
    pub(crate) units: Vec<u16>,
    // Where each row but the first starts.
    pub(crate) starts: Vec<u32>,
}

impl Model for LineText {
    ghost use Rattle.std.specs.Prelude.{◌≡◌, ◌≤◌, ℕ, List, length};
    ghost use Rattle.points.specs.declared.limits.TheConstants.{MAX_UNITS};
    ghost use Rattle.line_text.specs.Starts.{starts_of};

    ghost Value = { List ℕ };

    ghost view = { λ t. t.units.items };

    ghost invariant = { λ t. (t.starts.items ≡ starts_of t.units.items) × (length t.units.items ≤ MAX_UNITS) };
}

impl LineText {
    /// How many units there are, at most [`MAX_UNITS`].
    pub fn len(&self) -> usize
        ensures value { result ≡ length self.now }
        ensures short { result ≤ MAX_UNITS }
    {
        self.rows_kept().units.len()
    }

    /// The units from one offset up to another, lent.
    pub fn slice(&self, from: usize, to: usize) -> &[u16]
        requires order { from ≤ to }
        requires within { to ≤ length self.now }
        ensures { result.now ≡ slice_range self.now from to }
    {
        &self.rows_kept().units[from..to]
    }

    /// The text, with U+FFFD in place of each surrogate that lacks its partner.
    pub fn to_text(&self) -> Result<String, NoMemory>
        ensures { IfOk result (λ text. string_bytes text ≡ text_of self.now) }
    {
        let alloc = *self.units.allocator();
        let text = String::from_utf16_lossy(alloc, self.units.as_slice())?;
        Ok(text)
    }

    /// The units and the starts of rows, for a look-up.
    pub(crate) fn rows_kept(&self) -> Rows<'_>
        ensures { result.units.now ≡ self.now }
    {
        Rows {
            units: self.units.as_slice(),
            starts: self.starts.as_slice(),
        }
    }
}
