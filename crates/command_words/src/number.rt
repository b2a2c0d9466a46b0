//! The numbers of a command line.
ghost use Rattle.std.specs.Prelude.{◌≡◌, ◌≤◌, IfSome};
ghost use Rattle.std.specs.Char.{is_ascii_digit};
ghost use Rattle.std.specs.List.{list_all};
ghost use Rattle.command_words.specs.CommandLine.{is_number_word, number_in};

/// The number that a word is, where it is one and lies between these.
pub(crate) fn number_in(word: &str, low: u32, high: u32) -> Option<u32>
    ensures number { result ≡ number_in low high word.now }
    ensures low { IfSome result (λ n. low ≤ n) }
    ensures high { IfSome result (λ n. n ≤ high) }
{
    if !is_number_word(word) {
        return None;
    }
    match word.parse::<u32>() {
        Ok(number) if low <= number && number <= high => Some(number),
        _ => None,
    }
}

// Whether a word is a number: 1 to 9 digits, with no leading zero but in `0` itself.
fn is_number_word(word: &str) -> bool
    ensures { result ≡ is_number_word word.now }
{
    let digits = word.as_bytes();
    if digits.is_empty() {
        return false;
    }
    if digits.len() > 9 {
        return false;
    }
    let is_alone = digits.len() == 1;
    let is_leading = digits[0] == b'0';
    (is_alone || !is_leading) && are_digits(digits)
}

fn are_digits(bytes: &[u8]) -> bool
    ensures { result ≡ list_all is_ascii_digit bytes.now }
{
    for byte in bytes {
        if !byte.is_ascii_digit() {
            return false;
        }
    }
    true
}
