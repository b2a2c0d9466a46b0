//! Facts about the definitions: each function states one and does nothing.
ghost use Rattle.std.specs.Prelude.{◌≡◌, ℕ, ◌≤◌, slice_index};
ghost use Rattle.points.specs.Text.{IsWellFormed};
ghost use Rattle.machine.specs.Encodings.{encode};
ghost use Rattle.machine.specs.declared.reads.Encoding.TheVariants.{Latin1};
ghost use Rattle.codecs.specs.Decoding.{decoded};

use machine::Encoding;

/// What was encoded is decoded to the same text; in Latin-1, where no character of it is above U+00FF.
pub fn decoded_again(encoding: Encoding, text: &[u16])
    ensures { IsWellFormed text.now → (encoding ≡ Latin1 → (k : ℕ) → slice_index text.now k ≤ 255)
        → decoded encoding (encode encoding text.now) ≡ text.now }
{}
