//! A text taken unit by unit, and written as bytes in an encoding.
ghost use Rattle.std.specs.Prelude.{◌≡◌, ℕ, ◌+◌, ◌<◌, ◌≤◌, [], ◌∷◌, ◌++◌, length, take};
ghost use Rattle.std.specs.Prelude.{true, false, Some, None, if◌then◌else◌};
ghost use Rattle.std.specs.Char.Utf16.{is_high_surrogate, is_low_surrogate, surrogate_pair_char};
ghost use Rattle.std.specs.Char.{encode_utf8};
ghost use Rattle.arrayvec.specs.ArrayVec.{array_vec_len};
ghost use Rattle.machine.specs.Encodings.{encode, low_first, high_first, latin1_byte};
ghost use Rattle.codecs.specs.Partway.{waiting, completed, behind, IsFront, fits_behind, unit_bytes, unit_waits};

use arrayvec::ArrayVec;
use machine::Encoding;
use std::marker::Model;

/// What writes a text as bytes in an encoding, as its units come. Contracts see the encoding and the high surrogate
/// that waits for its partner, if one does.
#[derive(Debug, Drop)]
pub struct Encoder {
    encoding: Encoding,
    waits: Option<u16>,
}

impl Model for Encoder {
    ghost use Rattle.std.specs.Prelude.{IfSome, IsTrue};
    ghost use Rattle.std.specs.Char.Utf16.{is_high_surrogate};
    ghost use Rattle.codecs.specs.Partway.{Partway};

    ghost Value = { Partway };

    ghost view = { λ e. record { encoding = e.encoding; waits = e.waits } };

    ghost invariant = { λ e. IfSome e.waits (λ u. IsTrue (is_high_surrogate u)) };
}

impl Encoder {
    /// An encoder that no unit has come to.
    pub fn new(encoding: Encoding) -> Self
        ensures { result ≡ record { encoding = encoding; waits = None } }
    {
        Encoder {
            encoding,
            waits: None,
        }
    }

    /// Takes units from the front while at least four bytes of room are left, and answers how many it took. The bytes
    /// of each character that they complete are put at the end of `into`.
    pub fn step(&mut self, units: &[u16], into: &mut ArrayVec<u8, 4096>) -> usize
        requires { IsFront (behind self.old.waits units.now) }
        ensures within { result ≤ length units.now }
        ensures encoding { self.new.encoding ≡ self.old.encoding }
        ensures waits { self.new.waits ≡ waiting (behind self.old.waits (take result units.now)) }
        ensures bytes { into.new.items ≡ into.old.items
            ++ encode self.old.encoding (completed (behind self.old.waits (take result units.now))) }
        ensures room { (k : ℕ) → k < result → array_vec_len into.old
            + length (encode self.old.encoding (completed (behind self.old.waits (take k units.now)))) ≤ 4092 }
        ensures goes { 0 < length units.now → array_vec_len into.old ≤ 4092 → 0 < result }
        ensures stops { result < length units.now → 4092 < array_vec_len into.new }
    {
        // The view is opened here: what waits is a high surrogate.
        let _ = &self.waits;
        let mut taken = 0;
        while taken < units.len() && into.len() <= 4092 {
            self.take_unit(units[taken], into);
            taken += 1;
        }
        taken
    }

    // Takes one more unit, and puts the bytes of the character that it completes at the end of `into`.
    fn take_unit(&mut self, unit: u16, into: &mut ArrayVec<u8, 4096>)
        requires room { array_vec_len into.old ≤ 4092 }
        requires fits { fits_behind self.old.waits unit }
        ensures encoding { self.new.encoding ≡ self.old.encoding }
        ensures waits { self.new.waits ≡ unit_waits unit }
        ensures bytes { into.new.items ≡ into.old.items ++ unit_bytes self.old unit }
    {
        if is_high(unit) {
            self.waits = Some(unit);
            return;
        }
        match self.waits {
            None => put_lone(self.encoding, unit, into),
            Some(high) => put_pair(self.encoding, high, unit, into),
        }
        self.waits = None;
    }
}

// Tells whether a unit is a high surrogate.
fn is_high(unit: u16) -> bool
    ensures { result ≡ is_high_surrogate unit }
{
    0xD800 <= unit && unit < 0xDC00
}

// Puts the bytes of a unit that is a character.
fn put_lone(encoding: Encoding, unit: u16, into: &mut ArrayVec<u8, 4096>)
    requires room { array_vec_len into.old ≤ 4092 }
    requires high { is_high_surrogate unit ≡ false }
    requires low { is_low_surrogate unit ≡ false }
    ensures { into.new.items ≡ into.old.items ++ encode encoding (unit ∷ []) }
{
    match encoding {
        Encoding::Utf8 => put_narrow(unit, into),
        Encoding::Utf16Le => put_low_first(unit, into),
        Encoding::Utf16Be => put_high_first(unit, into),
        Encoding::Latin1 => into.push(latin1(unit)),
    }
}

// Puts the bytes of the two units of a character.
fn put_pair(encoding: Encoding, high: u16, low: u16, into: &mut ArrayVec<u8, 4096>)
    requires room { array_vec_len into.old ≤ 4092 }
    requires high { is_high_surrogate high ≡ true }
    requires low { is_low_surrogate low ≡ true }
    ensures { into.new.items ≡ into.old.items ++ encode encoding (high ∷ low ∷ []) }
{
    match encoding {
        Encoding::Utf8 => put_wide(high, low, into),
        Encoding::Utf16Le => {
            put_low_first(high, into);
            put_low_first(low, into);
        }
        Encoding::Utf16Be => {
            put_high_first(high, into);
            put_high_first(low, into);
        }
        Encoding::Latin1 => into.push(b'?'),
    }
}

// Puts the low byte of a unit, and then the high one.
fn put_low_first(unit: u16, into: &mut ArrayVec<u8, 4096>)
    requires { array_vec_len into.old ≤ 4094 }
    ensures { into.new.items ≡ into.old.items ++ low_first unit }
{
    into.push((unit % 256) as u8);
    into.push((unit / 256) as u8);
}

// Puts the high byte of a unit, and then the low one.
fn put_high_first(unit: u16, into: &mut ArrayVec<u8, 4096>)
    requires { array_vec_len into.old ≤ 4094 }
    ensures { into.new.items ≡ into.old.items ++ high_first unit }
{
    into.push((unit / 256) as u8);
    into.push((unit % 256) as u8);
}

// Puts the bytes in UTF-8 of a character of one unit.
fn put_narrow(code: u16, into: &mut ArrayVec<u8, 4096>)
    requires { array_vec_len into.old ≤ 4092 }
    ensures { into.new.items ≡ into.old.items ++ encode_utf8 code }
{
    if code < 0x80 {
        into.push(code as u8);
    } else if code < 0x800 {
        into.push((192 + code / 64) as u8);
        into.push((128 + code % 64) as u8);
    } else {
        into.push((224 + code / 4096) as u8);
        into.push((128 + code / 64 % 64) as u8);
        into.push((128 + code % 64) as u8);
    }
}

// Puts the bytes in UTF-8 of the character of a pair.
fn put_wide(high: u16, low: u16, into: &mut ArrayVec<u8, 4096>)
    requires room { array_vec_len into.old ≤ 4092 }
    requires high { is_high_surrogate high ≡ true }
    requires low { is_low_surrogate low ≡ true }
    ensures { into.new.items ≡ into.old.items ++ encode_utf8 (surrogate_pair_char high low) }
{
    let code = 0x1_0000 + (u32::from(high) - 0xD800) * 0x400 + (u32::from(low) - 0xDC00);
    into.push((240 + code / 262144) as u8);
    into.push((128 + code / 4096 % 64) as u8);
    into.push((128 + code / 64 % 64) as u8);
    into.push((128 + code % 64) as u8);
}

// The byte in Latin-1 of a character of one unit.
fn latin1(code: u16) -> u8
    ensures { result ≡ latin1_byte code }
{
    if code <= 255 { code as u8 } else { b'?' }
}
