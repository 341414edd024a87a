// What stands in a line after the word that names it.
ghost use Rattle.std.specs.Prelude.{◌≡◌, ℕ, List, ◌∷◌, [], ◌^◌, ◌<◌, ◌≤◌, IfOk, MatchOption, codes, decimal, length, map};
ghost use Rattle.text_words.specs.Reads.{Reads};
ghost use Rattle.storage_model.specs.Faults.{IsKind};
ghost use Rattle.text_words.specs.HexNumber.{hex_number};
ghost use Rattle.fault_text.specs.Lines.{fault_word, kind_words, letter_byte};

use crate::numbers::read_number;
use std::alloc::Global;
use storage_model::{BusKind, Letter, LetterList, NoMemory};
use text_words::{Words, read_decimal, read_decimal_in, read_hex_u8, read_hex_u32};

const LAST_COMMAND: u32 = 4_294_967_294;

const MAX_BLOCKS: u16 = 1024;

const MAX_LETTERS: usize = 65_536;

/// A mask, and no more.
pub fn last_hex(mut words: Words) -> Option<u32>
    ensures { Reads result (λ mask. (mask < 2 ^ 32) × (words.entry ≡ hex_number mask ∷ [])) }
{
    let mask = read_hex_u32(words.next()?)?;
    words.end()?;
    Some(mask)
}

/// A number, and no more.
pub fn last_number(mut words: Words) -> Option<u32>
    ensures { Reads result (λ n. (n < 2 ^ 32) × (words.entry ≡ decimal n ∷ [])) }
{
    let number = read_decimal(words.next()?)?;
    words.end()?;
    Some(number)
}

/// A command's number, and what befalls it.
pub fn bus_fields(mut words: Words) -> Option<(u32, BusKind)>
    ensures { Reads result (λ f. (1 ≤ f.0) × (f.0 ≤ 4294967294) × IsKind f.1 × (words.entry ≡ decimal f.0 ∷ kind_words f.1)) }
{
    let number = read_number(words.next()?, 1, LAST_COMMAND)?;
    let kind = kind(words)?;
    Some((number, kind))
}

fn kind(mut words: Words) -> Option<BusKind>
    ensures { Reads result (λ kind. IsKind kind × (words.entry ≡ kind_words kind)) }
{
    match words.next()? {
        b"lost" => lost(words),
        b"noresp" => no_response(words),
        b"data" => bad_block(words),
        b"late" => late(words),
        _ => None,
    }
}

fn lost(words: Words) -> Option<BusKind>
    ensures { Reads result (λ kind. IsKind kind × (codes "lost" ∷ words.entry ≡ kind_words kind)) }
{
    words.end()?;
    Some(BusKind::Lost)
}

fn no_response(words: Words) -> Option<BusKind>
    ensures { Reads result (λ kind. IsKind kind × (codes "noresp" ∷ words.entry ≡ kind_words kind)) }
{
    words.end()?;
    Some(BusKind::NoResp)
}

fn late(words: Words) -> Option<BusKind>
    ensures { Reads result (λ kind. IsKind kind × (codes "late" ∷ words.entry ≡ kind_words kind)) }
{
    words.end()?;
    Some(BusKind::Late)
}

fn bad_block(words: Words) -> Option<BusKind>
    ensures { Reads result (λ kind. IsKind kind × (codes "data" ∷ words.entry ≡ kind_words kind)) }
{
    let block = last_block(words)?;
    Some(BusKind::Bad(block))
}

fn last_block(mut words: Words) -> Option<u16>
    ensures { Reads result (λ block. (1 ≤ block) × (block ≤ 1024) × (words.entry ≡ decimal block ∷ [])) }
{
    let block = read_decimal_in(words.next()?, 1, MAX_BLOCKS)?;
    words.end()?;
    Some(block)
}

/// A program's number, whether it is cut, and the granules that are new.
pub fn program_fields(mut words: Words) -> Option<(u32, bool, u8)>
    ensures { Reads result (λ f. (1 ≤ f.0) × (f.0 < 2 ^ 32) × (f.2 < 2 ^ 8) × (words.entry ≡ decimal f.0 ∷ fault_word f.1 ∷ hex_number f.2 ∷ [])) }
{
    let number = read_number(words.next()?, 1, u32::MAX)?;
    let cut = is_cut(words.next()?)?;
    let mask = read_hex_u8(words.next()?)?;
    words.end()?;
    Some((number, cut, mask))
}

fn is_cut(word: &[u8]) -> Option<bool>
    ensures { Reads result (λ cut. word.now ≡ fault_word cut) }
{
    match word {
        b"fail" => Some(false),
        b"cut" => Some(true),
        _ => None,
    }
}

/// A fetch's number, and that it fails.
pub fn fetch_fields(mut words: Words) -> Option<u32>
    ensures { Reads result (λ n. (1 ≤ n) × (n < 2 ^ 32) × (words.entry ≡ decimal n ∷ codes "fail" ∷ [])) }
{
    let number = read_number(words.next()?, 1, u32::MAX)?;
    match words.next()? {
        b"fail" => {}
        _ => return None,
    }
    words.end()?;
    Some(number)
}

/// A word of letters, and no more.
pub fn last_letters(alloc: Global, mut words: Words) -> Result<Option<LetterList>, NoMemory>
    ensures { IfOk result (λ read. Reads read (λ letters. (1 ≤ length letters) × (length letters ≤ 65536) × (words.entry ≡ map letter_byte letters ∷ []))) }
{
    match last_word(words) {
        Some(word) => letters_of(alloc, word),
        None => Ok(None),
    }
}

fn last_word(mut words: Words) -> Option<&[u8]>
    ensures { MatchOption result ((word : List ℕ) → ¬ (words.entry ≡ word ∷ [])) (λ word. words.entry ≡ word.now ∷ []) }
{
    let word = words.next()?;
    words.end()?;
    Some(word)
}

fn letters_of(alloc: Global, word: &[u8]) -> Result<Option<LetterList>, NoMemory>
    ensures { IfOk result (λ read. Reads read (λ letters. (1 ≤ length letters) × (length letters ≤ 65536) × (word.now ≡ map letter_byte letters))) }
{
    if word.is_empty() || word.len() > MAX_LETTERS {
        return Ok(None);
    }
    let mut letters = LetterList::new(alloc);
    for byte in word {
        let Some(letter) = letter_of(*byte) else {
            return Ok(None);
        };
        letters.push(letter)?;
    }
    Ok(Some(letters))
}

fn letter_of(byte: u8) -> Option<Letter>
    ensures { Reads result (λ letter. byte ≡ letter_byte letter) }
{
    match byte {
        b'h' => Some(Letter::Host),
        b'e' => Some(Letter::Engine),
        b'c' => Some(Letter::Card),
        b'x' => Some(Letter::Cut),
        _ => None,
    }
}
