// Numbers in limits.
ghost use Rattle.std.specs.Prelude.{◌≡◌, ◌≤◌, decimal};
ghost use Rattle.text_words.specs.Reads.{Reads};

use text_words::read_decimal;

/// A decimal number from `low` to `high`.
pub fn read_number(word: &[u8], low: u32, high: u32) -> Option<u32>
    ensures { Reads result (λ n. (low ≤ n) × (n ≤ high) × (word.now ≡ decimal n)) }
{
    let number = read_decimal(word)?;
    if number < low || number > high {
        return None;
    }
    Some(number)
}
