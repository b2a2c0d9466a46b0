//! A plain slow reading of UTF-8, by the rows of the Unicode standard's Table 3-7: U+FFFD stands for each longest piece
//! that begins a character and ends before it, and for each byte that begins none.
use points::NoMemory;
use std::alloc::Global;

// The row of a character's first byte: the least and the greatest second byte, and how many bytes the character has, 0
// where none begins so.
fn row(first: u8) -> (u8, u8, usize) {
    match first {
        0x00..=0x7F => (0, 0, 1),
        0xC2..=0xDF => (0x80, 0xBF, 2),
        0xE0 => (0xA0, 0xBF, 3),
        0xED => (0x80, 0x9F, 3),
        0xE1..=0xEF => (0x80, 0xBF, 3),
        0xF0 => (0x90, 0xBF, 4),
        0xF1..=0xF3 => (0x80, 0xBF, 4),
        0xF4 => (0x80, 0x8F, 4),
        _ => (0, 0, 0),
    }
}

// The bits of a character's number that are in its first byte.
fn first_bits(first: u8, len: usize) -> u8 {
    match len {
        1 => first,
        2 => first % 32,
        3 => first % 16,
        _ => first % 8,
    }
}

// The character at the front, or U+FFFD, and how many bytes stand for it.
fn front(first: u8, bytes: &[u8]) -> (char, usize) {
    let (least, greatest, len) = row(first);
    if len == 0 {
        return ('\u{FFFD}', 1);
    }
    let mut code = u32::from(first_bits(first, len));
    for at in 1..len {
        let (least, greatest) = if at == 1 {
            (least, greatest)
        } else {
            (0x80, 0xBF)
        };
        match bytes.get(at) {
            Some(byte) if least <= *byte && *byte <= greatest => {
                code = code.wrapping_mul(64).wrapping_add(u32::from(*byte % 64));
            }
            _ => return ('\u{FFFD}', at),
        }
    }
    (char::from_u32(code).unwrap_or('\u{FFFD}'), len)
}

/// The text of these bytes.
pub fn plain_text(alloc: Global, bytes: &[u8]) -> Result<String, NoMemory> {
    let mut text = String::new(alloc);
    let mut rest = bytes;
    for _ in 0..bytes.len() {
        let Some(first) = rest.first() else {
            return Ok(text);
        };
        let (c, len) = front(*first, rest);
        text.push(c)?;
        rest = rest.get(len..).unwrap_or(&[]);
    }
    Ok(text)
}
