//! Bytes read as a text.
ghost use Rattle.std.specs.Prelude.{◌≡◌, ◌+◌, ◌*◌, ◌≤◌, length};
ghost use Rattle.std.specs.Prelude.{encode_utf8_all, IfOk, string_bytes};
ghost use Rattle.std.specs.Char.Utf16.{utf16_lossy_chars};
ghost use Rattle.points.specs.Text.{utf16_of, text_of};
ghost use Rattle.codecs.specs.Decoding.{decoded, paired, unit_of};
ghost use Rattle.bstr.specs.Utf8.{lossy_chars};

use bstr::ByteSlice;
use machine::Encoding;
use points::NoMemory;
use std::alloc::Global;

/// The text of bytes in an encoding. UTF-8 has U+FFFD for each longest piece that begins a character and ends before it
/// (Unicode Table 3-7), as `bstr` reads it; UTF-16 for each surrogate that lacks its partner and for a last odd byte.
pub fn decode(alloc: Global, encoding: Encoding, bytes: &[u8]) -> Result<String, NoMemory>
    ensures { IfOk result (λ text. utf16_of (string_bytes text) ≡ decoded encoding bytes.now) }
{
    match encoding {
        Encoding::Utf8 => decode_utf8(alloc, bytes),
        Encoding::Utf16Le => decode_utf16(alloc, true, bytes),
        Encoding::Utf16Be => decode_utf16(alloc, false, bytes),
        Encoding::Latin1 => decode_latin1(alloc, bytes),
    }
}

fn decode_utf8(alloc: Global, bytes: &[u8]) -> Result<String, NoMemory>
    ensures { IfOk result (λ text. string_bytes text ≡ encode_utf8_all (lossy_chars bytes.now)) }
{
    let mut text = String::new(alloc);
    bytes.to_str_lossy_into(&mut text)?;
    Ok(text)
}

fn decode_utf16(alloc: Global, low_first: bool, bytes: &[u8]) -> Result<String, NoMemory>
    ensures { IfOk result (λ text. string_bytes text ≡ text_of (paired (unit_of low_first) bytes.now)) }
{
    let units = paired_units(alloc, low_first, bytes)?;
    let text = String::from_utf16_lossy(alloc, units.as_slice())?;
    Ok(text)
}

fn decode_latin1(alloc: Global, bytes: &[u8]) -> Result<String, NoMemory>
    ensures { IfOk result (λ text. string_bytes text ≡ encode_utf8_all bytes.now) }
{
    let mut text = String::with_capacity(alloc, bytes.len())?;
    for byte in bytes {
        text.push(char::from(*byte))?;
    }
    Ok(text)
}

// The units of bytes that are taken two by two, each with its low byte first or its high one.
fn paired_units(alloc: Global, low_first: bool, bytes: &[u8]) -> Result<Vec<u16>, NoMemory>
    ensures { IfOk result (λ units. units.items ≡ paired (unit_of low_first) bytes.now) }
{
    let mut units = Vec::with_capacity(alloc, bytes.len() / 2 + 1)?;
    let mut at = 0;
    while bytes.len() - at >= 2 {
        units.push(unit(low_first, bytes[at], bytes[at + 1]))?;
        at += 2;
    }
    if at < bytes.len() {
        units.push(0xFFFD)?;
    }
    Ok(units)
}

// The unit of two bytes.
fn unit(low_first: bool, first: u8, second: u8) -> u16
    ensures { result ≡ unit_of low_first first second }
{
    if low_first {
        u16::from(first) + 256 * u16::from(second)
    } else {
        256 * u16::from(first) + u16::from(second)
    }
}
