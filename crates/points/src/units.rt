//! Lists of UTF-16 units, well-formed or not: read from text, put together, and given back as text.
//!
//! Surrogates that lack their partner are kept in the list; the text has U+FFFD in their place.
ghost use Rattle.std.specs.Prelude.{◌≡◌, ℕ, List, [], ◌++◌, length, IfOk, OnOk, OnErr, string_bytes};
ghost use Rattle.std.specs.Char.Escape.{encode_utf16};
ghost use Rattle.points.specs.Text.{utf16_of, text_of};

use crate::memory::NoMemory;
use std::alloc::{AllocError, Global};
use std::marker::Model;

/// A list of UTF-16 units. It need not be well-formed.
#[derive(Debug, Drop)]
pub struct Units {
    items: Vec<u16>,
}

impl Model for Units {
    ghost Value = { List ℕ };

    ghost view = { λ u. u.items.items };
}

impl Units {
    /// No units, over the allocator that later calls take memory from. It takes none itself.
    pub fn new(alloc: Global) -> Self
        ensures { result ≡ [] }
    {
        Units {
            items: Vec::new(alloc),
        }
    }

    /// The UTF-16 encoding of `text`.
    pub fn from_str(alloc: Global, text: &str) -> Result<Self, NoMemory>
        ensures { IfOk result (λ units. units ≡ utf16_of text.now) }
    {
        let mut items = Vec::new(alloc);
        for c in text.chars() {
            push_encoded(&mut items, c)?;
        }
        Ok(Units { items })
    }

    /// How many units there are.
    pub fn len(&self) -> usize
        ensures { result ≡ length self.now }
    {
        self.items.len()
    }

    /// The units, lent.
    pub fn as_slice(&self) -> &[u16]
        ensures { result.now ≡ self.now }
    {
        self.items.as_slice()
    }

    /// The units as a vector, over the same allocator and memory.
    pub fn into_vec(self) -> Vec<u16>
        ensures { result.items ≡ self }
    {
        let Units { items } = self;
        items
    }

    /// Drops every unit. It takes no memory.
    pub fn clear(&mut self)
        ensures { self.new ≡ [] }
    {
        self.items.clear();
    }

    /// Puts `more` at the end. A refusal leaves the units as they were.
    pub fn append(&mut self, more: &[u16]) -> Result<(), NoMemory>
        ensures ok { OnOk result (self.new ≡ self.old ++ more.now) }
        ensures err { OnErr result (self.new ≡ self.old) }
    {
        self.items.extend_from_slice(more)?;
        Ok(())
    }

    /// An equal list, over the same allocator.
    pub fn try_clone(&self) -> Result<Self, NoMemory>
        ensures { IfOk result (λ units. units ≡ self.now) }
    {
        let alloc = *self.items.allocator();
        let items = Vec::from_slice(alloc, self.items.as_slice())?;
        Ok(Units { items })
    }

    /// The text, with U+FFFD in place of each surrogate that lacks its partner.
    pub fn to_text(&self) -> Result<String, NoMemory>
        ensures { IfOk result (λ text. string_bytes text ≡ text_of self.now) }
    {
        let alloc = *self.items.allocator();
        let text = String::from_utf16_lossy(alloc, self.items.as_slice())?;
        Ok(text)
    }
}

// The one or two units of `c` at the end.
fn push_encoded(items: &mut Vec<u16>, c: char) -> Result<(), AllocError>
    ensures ok { OnOk result (items.new.items ≡ items.old.items ++ encode_utf16 c) }
{
    let mut pair = [0u16; 2];
    let encoded = c.encode_utf16(&mut pair);
    items.extend_from_slice(encoded)?;
    Ok(())
}
