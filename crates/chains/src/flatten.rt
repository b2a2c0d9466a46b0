//! A new base: the text that all layers give, put together stretch by stretch.
ghost use Rattle.std.specs.Prelude.{◌≡◌, [], IfOk};
ghost use Rattle.chains.specs.Layered.{on_base, whole_text};

use crate::chain::Chain;
use line_text::LineText;
use points::NoMemory;
use std::alloc::Global;

impl Chain {
    /// The text with no layer above it: a new base, which copies each unit once.
    pub fn flattened(&self, alloc: Global) -> Result<Self, NoMemory>
        ensures { IfOk result (λ made. made ≡ on_base (whole_text self.now) []) }
    {
        let text = self.joined(alloc)?;
        Chain::of(alloc, text)
    }

    // The units of all layers, put together. A stretch lends the starts of its rows, so no line feed is
    // counted again.
    fn joined(&self, alloc: Global) -> Result<LineText, NoMemory>
        ensures { IfOk result (λ text. text ≡ whole_text self.now) }
    {
        let end = self.end();
        let mut text = LineText::with_room(alloc, end.offset as usize, end.point.row as usize)?;
        let mut at = 0;
        'stretches: while at < end.offset {
            let part = self.stretch(at, end.offset).part;
            at += part.len() as u32;
            text.append(part)?;
        }
        Ok(text)
    }
}
