// Hexadecimal numbers without leading zeros, each with exactly one spelling.
ghost use Rattle.std.specs.Prelude.{◌≡◌, ◌↔◌, ◌^◌, ◌<◌, ◌⊎◌, All, IsTrue};
ghost use Rattle.text_words.specs.Reads.{Reads};
ghost use Rattle.text_words.specs.HexNumber.{HasLeadingZero, IsLowerDigit, hex_number};

/// A number of 64 bits, so one of at most 16 digits.
pub fn read_hex_number(word: &[u8]) -> Option<u64>
    ensures { Reads result (λ n. (n < 2 ^ 64) × (word.now ≡ hex_number n)) }
{
    if has_leading_zero(word) {
        return None;
    }
    if !are_lower_digits(word) {
        return None;
    }
    let Ok(text) = std::str::from_utf8(word) else {
        return None;
    };
    let Ok(number) = u64::from_str_radix(text, 16) else {
        return None;
    };
    Some(number)
}

/// A number of 32 bits, so one of at most 8 digits.
pub fn read_hex_u32(word: &[u8]) -> Option<u32>
    ensures { Reads result (λ n. (n < 2 ^ 32) × (word.now ≡ hex_number n)) }
{
    let number = read_hex_number(word)?;
    if number > u64::from(u32::MAX) {
        return None;
    }
    Some(number as u32)
}

/// A number of 8 bits, so one of at most 2 digits.
pub fn read_hex_u8(word: &[u8]) -> Option<u8>
    ensures { Reads result (λ n. (n < 2 ^ 8) × (word.now ≡ hex_number n)) }
{
    let number = read_hex_number(word)?;
    if number > 255 {
        return None;
    }
    Some(number as u8)
}

// Whether a zero stands before other digits.
fn has_leading_zero(word: &[u8]) -> bool
    ensures { IsTrue result ↔ HasLeadingZero word.now }
{
    word.len() > 1 && word[0] == b'0'
}

fn are_lower_digits(word: &[u8]) -> bool
    ensures { IsTrue result ↔ All IsLowerDigit word.now }
{
    word.iter().all(|digit| is_lower_digit(*digit))
}

fn is_lower_digit(digit: u8) -> bool
    ensures { IsTrue result ↔ IsLowerDigit digit }
{
    matches!(digit, b'0'..=b'9' | b'a'..=b'f')
}
