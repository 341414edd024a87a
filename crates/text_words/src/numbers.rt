// Numbers and bytes, each with exactly one spelling.
ghost use Rattle.std.specs.Prelude.{◌≡◌, ◌^◌, ◌<◌, ◌≤◌, decimal, slice_index};
ghost use Rattle.text_words.specs.Reads.{Reads};
ghost use Rattle.text_words.specs.Words.{hex_byte};
ghost use Rattle.hex.specs.Hex.{lower_digits};

use itoa::Buffer;

/// A decimal number of 32 bits, with no leading zero but `0` itself.
pub fn read_decimal(word: &[u8]) -> Option<u32>
    ensures { Reads result (λ n. (n < 2 ^ 32) × (word.now ≡ decimal n)) }
{
    let Ok(text) = std::str::from_utf8(word) else {
        return None;
    };
    let Ok(number) = text.parse::<u32>() else {
        return None;
    };
    if Buffer::new().format(number) == text {
        Some(number)
    } else {
        None
    }
}

/// A decimal number from `low` to `high`.
pub fn read_decimal_in(word: &[u8], low: u16, high: u16) -> Option<u16>
    ensures { Reads result (λ n. (low ≤ n) × (n ≤ high) × (word.now ≡ decimal n)) }
{
    let number = read_decimal(word)?;
    if number < u32::from(low) || number > u32::from(high) {
        return None;
    }
    Some(number as u16)
}

/// A byte of two lower case hexadecimal digits.
pub fn read_hex_byte(word: &[u8]) -> Option<u8>
    ensures { Reads result (λ byte. (byte < 2 ^ 8) × (word.now ≡ hex_byte byte)) }
{
    if word.len() != 2 {
        return None;
    }
    let high = digit_value(word[0])?;
    let low = digit_value(word[1])?;
    Some(16 * high + low)
}

fn digit_value(digit: u8) -> Option<u8>
    ensures { Reads result (λ value. (value < 16) × (digit ≡ slice_index lower_digits value)) }
{
    match digit {
        b'0'..=b'9' => Some(digit - b'0'),
        b'a'..=b'f' => Some(digit - b'a' + 10),
        _ => None,
    }
}
