// What stands in a line after the word that names it.
ghost use Rattle.std.specs.Prelude.{◌≡◌, ◌∷◌, [], ◌++◌, ◌^◌, ◌<◌, ◌≤◌, ◌*◌, ℕ, List, length, IfOk, IfSome, IfNone, IsTrue, MatchOption, ◌≢◌, ◌↔◌, codes, decimal};
ghost use Rattle.hex.specs.Hex.{decode_of, encode_lower};
ghost use Rattle.text_words.specs.Reads.{Reads};
ghost use Rattle.text_words.specs.Words.{hex_byte};
ghost use Rattle.text_words.specs.HexNumber.{hex_number};
ghost use Rattle.raw_text.specs.Raw.{ArePoked};

use hex::FromHexError;
use std::alloc::Global;
use storage_model::{Bytes, NoMemory};
use text_words::{Words, read_decimal, read_hex_byte, read_hex_number, read_hex_u32};

const MAX_POKED: usize = 512;

const MAX_FILLED: u32 = 1_048_576;

const MAX_PEEKED: u32 = 512;

/// An address and the word after it, and no more.
pub fn address_and_word<'a>(mut words: Words<'a>) -> Option<(u64, &'a [u8])>
    ensures some { IfSome result (λ f. (f.0 < 2 ^ 64) × (words.entry ≡ hex_number f.0 ∷ f.1.now ∷ [])) }
    ensures none { IfNone result ((address : ℕ) (word : List ℕ) → address < 2 ^ 64 → ¬ (words.entry ≡ hex_number address ∷ word ∷ [])) }
{
    let address = read_hex_number(words.next()?)?;
    let word = words.next()?;
    words.end()?;
    Some((address, word))
}

/// An address, a length and a byte.
pub fn filled_range(mut words: Words) -> Option<(u64, u32, u8)>
    ensures { Reads result (λ f. (f.0 < 2 ^ 64) × (1 ≤ f.1) × (f.1 ≤ 1048576) × (f.2 < 2 ^ 8) × (words.entry ≡ hex_number f.0 ∷ decimal f.1 ∷ hex_byte f.2 ∷ [])) }
{
    let address = read_hex_number(words.next()?)?;
    let length = read_length(words.next()?, MAX_FILLED)?;
    let value = last_byte(words)?;
    Some((address, length, value))
}

/// An address and a length.
pub fn shown_range(mut words: Words) -> Option<(u64, u32)>
    ensures { Reads result (λ f. (f.0 < 2 ^ 64) × (1 ≤ f.1) × (f.1 ≤ 512) × (words.entry ≡ hex_number f.0 ∷ decimal f.1 ∷ [])) }
{
    let address = read_hex_number(words.next()?)?;
    let length = read_length(words.next()?, MAX_PEEKED)?;
    words.end()?;
    Some((address, length))
}

/// A register and a value.
pub fn register_and_value(mut words: Words) -> Option<(u8, u32)>
    ensures { Reads result (λ f. (f.0 < 2 ^ 8) × (f.1 < 2 ^ 32) × (words.entry ≡ hex_byte f.0 ∷ hex_number f.1 ∷ [])) }
{
    let register = read_hex_byte(words.next()?)?;
    let value = read_hex_u32(words.next()?)?;
    words.end()?;
    Some((register, value))
}

/// A byte of two digits, and no more.
pub fn last_byte(mut words: Words) -> Option<u8>
    ensures { Reads result (λ byte. (byte < 2 ^ 8) × (words.entry ≡ hex_byte byte ∷ [])) }
{
    let byte = read_hex_byte(words.next()?)?;
    words.end()?;
    Some(byte)
}

/// A number, and no more.
pub fn last_number(mut words: Words) -> Option<u32>
    ensures { Reads result (λ n. (n < 2 ^ 32) × (words.entry ≡ decimal n ∷ [])) }
{
    let number = read_decimal(words.next()?)?;
    words.end()?;
    Some(number)
}

fn read_length(word: &[u8], most: u32) -> Option<u32>
    ensures { Reads result (λ n. (1 ≤ n) × (n ≤ most) × (word.now ≡ decimal n)) }
{
    let number = read_decimal(word)?;
    if number < 1 {
        return None;
    }
    if number > most {
        return None;
    }
    Some(number)
}

/// The bytes of 1 to 512 pairs of digits.
pub fn read_bytes(alloc: Global, word: &[u8]) -> Result<Option<Bytes>, NoMemory>
    ensures { IfOk result (λ read. Reads read (λ bytes. ArePoked bytes × (word.now ≡ encode_lower bytes))) }
{
    if word.is_empty() {
        return Ok(None);
    }
    if word.len() > 2 * MAX_POKED {
        return Ok(None);
    }
    let Some(bytes) = decoded(alloc, word)? else {
        return Ok(None);
    };
    if !is_text_of(word, bytes.as_slice(), &mut [0; 1024]) {
        return Ok(None);
    }
    Ok(Some(Bytes::from_vec(bytes)))
}

// The bytes of pairs of digits, in lower or upper case.
fn decoded(alloc: Global, word: &[u8]) -> Result<Option<Vec<u8>>, NoMemory>
    ensures { IfOk result (λ read. MatchOption read ((bytes : List ℕ) → decode_of word.now ≢ Ok bytes) (λ bytes. decode_of word.now ≡ Ok bytes.items)) }
{
    match hex::decode(alloc, word) {
        Ok(bytes) => Ok(Some(bytes)),
        Err(error) => match error {
            FromHexError::OutOfMemory => Err(NoMemory),
            _ => Ok(None),
        },
    }
}

// Whether `word` is the text of these bytes, in lower case. `digits` is room for their digits.
fn is_text_of(word: &[u8], bytes: &[u8], digits: &mut [u8]) -> bool
    requires { 2 * length bytes.now ≤ length digits.old }
    ensures { IsTrue result ↔ (word.now ≡ encode_lower bytes.now) }
{
    let text = &mut digits[..2 * bytes.len()];
    hex::encode_to_slice(bytes, &mut *text).unwrap();
    *text == *word
}
