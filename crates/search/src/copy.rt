//! A reader's text as a string. Units that are all ASCII are their own bytes in UTF-8: they are written one for one.
ghost use Rattle.std.specs.Prelude.{◌≡◌, ◌<◌, ◌++◌, length, slice_index, string_bytes, true, IsAscii, IfOk, IfSome, OnOk};
ghost use Rattle.points.specs.Text.{text_of};
ghost use Rattle.points.specs.declared.limits.TheConstants.{MAX_UNITS};

use layers::Reader;
use points::{MAX_UNITS, NoMemory, Point, Range};
use std::alloc::Global;

/// The text, with U+FFFD in place of each surrogate that lacks its partner.
pub(crate) fn copied(alloc: Global, reader: &Reader) -> Result<String, NoMemory>
    ensures { IfOk result (λ text. string_bytes text ≡ text_of reader.now.text) }
{
    match copied_plain(alloc, reader)? {
        Some(text) => Ok(text),
        None => reader.to_text(),
    }
}

// The text, where it is all ASCII.
fn copied_plain(alloc: Global, reader: &Reader) -> Result<Option<String>, NoMemory>
    ensures { IfOk result (λ made. IfSome made (λ text. string_bytes text ≡ text_of reader.now.text)) }
{
    prove!(reader.len() <= MAX_UNITS);
    let past = Point {
        row: u32::MAX,
        column: 0,
    };
    let mut bytes = Vec::with_capacity(alloc, reader.len())?;
    for piece in reader.pieces(Range::new(Point { row: 0, column: 0 }, past)) {
        if !is_plain(piece) {
            return Ok(None);
        }
        put_plain(&mut bytes, piece)?;
    }
    match String::from_utf8(bytes) {
        Ok(text) => Ok(Some(text)),
        Err(_) => Ok(None),
    }
}

// Whether the units are all ASCII.
fn is_plain(units: &[u16]) -> bool
    ensures { result ≡ true → IsAscii units.now }
{
    let mut most = 0;
    for unit in units {
        if *unit > most {
            most = *unit;
        }
    }
    most < 128
}

// Puts units that are all ASCII at the end, a byte each.
fn put_plain(bytes: &mut Vec<u8>, units: &[u16]) -> Result<(), NoMemory>
    requires { IsAscii units.now }
    ensures { OnOk result (bytes.new.items ≡ bytes.old.items ++ units.now) }
{
    let from = bytes.len();
    bytes.resize(from + units.len(), 0)?;
    write_plain(&mut bytes[from..], units);
    Ok(())
}

// Writes units that are all ASCII into as many bytes.
fn write_plain(into: &mut [u8], units: &[u16])
    requires plain { IsAscii units.now }
    requires room { length into.old ≡ length units.now }
    ensures { into.new ≡ units.now }
{
    for at in 0..units.len() {
        into[at] = narrowed(units[at]);
    }
}

// A unit of ASCII as a byte.
fn narrowed(unit: u16) -> u8
    requires { unit < 128 }
    ensures { result ≡ unit }
{
    unit as u8
}
