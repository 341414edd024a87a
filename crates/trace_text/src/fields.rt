// What stands in a line after the word that names it.
ghost use Rattle.std.specs.Prelude.{◌≡◌, ◌≢◌, ◌∷◌, [], ◌^◌, ◌<◌, IfSome, codes, decimal};
ghost use Rattle.text_words.specs.Reads.{Reads};
ghost use Rattle.text_words.specs.Words.{hex_byte, hex_word};
ghost use Rattle.trace_text.specs.Trace.{IsBlock, IsKind, data_words, end_text, id_text, kept_words, kind_words, letter_text, limit_text, lines_text, why_text};

use storage_model::{Block, BusKind, End, Letter, Limit, Why};
use text_words::{
    Words, one_byte, read_decimal, read_decimal_in, read_hex_byte, read_hex_bytes, read_hex_word,
};

pub fn number(mut words: Words) -> Option<u32>
    ensures { Reads result (λ n. (n < 2 ^ 32) × (words.entry ≡ decimal n ∷ [])) }
{
    let number = read_decimal(words.next()?)?;
    words.end()?;
    Some(number)
}

pub fn two_numbers(mut words: Words) -> Option<(u32, u32)>
    ensures { Reads result (λ f. (f.0 < 2 ^ 32) × (f.1 < 2 ^ 32) × (words.entry ≡ decimal f.0 ∷ decimal f.1 ∷ [])) }
{
    let first = read_decimal(words.next()?)?;
    let second = number(words)?;
    Some((first, second))
}

/// A request's number and its tag.
pub fn tagged(mut words: Words) -> Option<(u32, u8)>
    ensures { Reads result (λ f. (f.0 < 2 ^ 32) × (f.1 < 2 ^ 8) × (words.entry ≡ decimal f.0 ∷ decimal f.1 ∷ [])) }
{
    let id = read_decimal(words.next()?)?;
    let tag = byte(words.next()?)?;
    words.end()?;
    Some((id, tag))
}

/// The sectors, the depth, and the lines of the cache.
pub fn geometry(mut words: Words) -> Option<(u32, u8, Option<u16>)>
    ensures { Reads result (λ f. (f.0 < 2 ^ 32) × (f.1 < 2 ^ 8) × IfSome f.2 (λ n. n < 2 ^ 16) × (words.entry ≡ decimal f.0 ∷ decimal f.1 ∷ lines_text f.2 ∷ [])) }
{
    let sectors = read_decimal(words.next()?)?;
    let depth = byte(words.next()?)?;
    let lines = lines(words.next()?)?;
    words.end()?;
    Some((sectors, depth, lines))
}

fn byte(word: &[u8]) -> Option<u8>
    ensures { Reads result (λ n. (n < 2 ^ 8) × (word.now ≡ decimal n)) }
{
    let number = read_decimal_in(word, 0, 255)?;
    Some(number as u8)
}

fn short(word: &[u8]) -> Option<u16>
    ensures { Reads result (λ n. (n < 2 ^ 16) × (word.now ≡ decimal n)) }
{
    read_decimal_in(word, 0, u16::MAX)
}

fn lines(word: &[u8]) -> Option<Option<u16>>
    ensures { Reads result (λ lines. IfSome lines (λ n. n < 2 ^ 16) × (word.now ≡ lines_text lines)) }
{
    match word {
        b"off" => Some(None),
        _ => Some(Some(short(word)?)),
    }
}

fn id(word: &[u8]) -> Option<Option<u32>>
    ensures { Reads result (λ id. IfSome id (λ n. n < 2 ^ 32) × (word.now ≡ id_text id)) }
{
    match word {
        b"-" => Some(None),
        _ => Some(Some(read_decimal(word)?)),
    }
}

/// A request's number or `-`, and no more.
pub fn last_id(mut words: Words) -> Option<Option<u32>>
    ensures { Reads result (λ id. IfSome id (λ n. n < 2 ^ 32) × (words.entry ≡ id_text id ∷ [])) }
{
    let id = id(words.next()?)?;
    words.end()?;
    Some(id)
}

/// Eight digits, and no more.
pub fn last_hex(mut words: Words) -> Option<u32>
    ensures { Reads result (λ n. (n < 2 ^ 32) × (words.entry ≡ hex_word n ∷ [])) }
{
    let number = read_hex_word(words.next()?)?;
    words.end()?;
    Some(number)
}

pub fn number_and_hex(mut words: Words) -> Option<(u32, u32)>
    ensures { Reads result (λ f. (f.0 < 2 ^ 32) × (f.1 < 2 ^ 32) × (words.entry ≡ decimal f.0 ∷ hex_word f.1 ∷ [])) }
{
    let number = read_decimal(words.next()?)?;
    let mask = last_hex(words)?;
    Some((number, mask))
}

/// A command's number, a request's, a count of blocks, and whether all was kept.
pub fn phase_fields(mut words: Words) -> Option<(u32, u32, u16, bool)>
    ensures { Reads result (λ f. (f.0 < 2 ^ 32) × (f.1 < 2 ^ 32) × (f.2 < 2 ^ 16) × (words.entry ≡ decimal f.0 ∷ decimal f.1 ∷ decimal f.2 ∷ kept_words f.3)) }
{
    let number = read_decimal(words.next()?)?;
    let id = read_decimal(words.next()?)?;
    let count = short(words.next()?)?;
    let kept = kept(words)?;
    Some((number, id, count, kept))
}

fn kept(mut words: Words) -> Option<bool>
    ensures { Reads result (λ kept. words.entry ≡ kept_words kept) }
{
    match words.next() {
        None => Some(false),
        Some(b"kept") => {
            words.end()?;
            Some(true)
        }
        Some(_) => None,
    }
}

/// A command's number, what befell it, and whose it was.
pub fn bus_fields(mut words: Words) -> Option<(u32, BusKind, Option<u32>)>
    ensures { Reads result (λ f. (f.0 < 2 ^ 32) × IsKind f.1 × IfSome f.2 (λ n. n < 2 ^ 32) × (words.entry ≡ decimal f.0 ∷ kind_words f.1 f.2)) }
{
    let number = read_decimal(words.next()?)?;
    let (kind, id) = kind(words)?;
    Some((number, kind, id))
}

fn kind(mut words: Words) -> Option<(BusKind, Option<u32>)>
    ensures { Reads result (λ f. IsKind f.0 × IfSome f.1 (λ n. n < 2 ^ 32) × (words.entry ≡ kind_words f.0 f.1)) }
{
    match words.next()? {
        b"lost" => lost(words),
        b"noresp" => no_response(words),
        b"data" => bad_block(words),
        b"late" => late(words),
        _ => None,
    }
}

fn lost(words: Words) -> Option<(BusKind, Option<u32>)>
    ensures { Reads result (λ f. IsKind f.0 × IfSome f.1 (λ n. n < 2 ^ 32) × (codes "lost" ∷ words.entry ≡ kind_words f.0 f.1)) }
{
    let id = last_id(words)?;
    Some((BusKind::Lost, id))
}

fn no_response(words: Words) -> Option<(BusKind, Option<u32>)>
    ensures { Reads result (λ f. IsKind f.0 × IfSome f.1 (λ n. n < 2 ^ 32) × (codes "noresp" ∷ words.entry ≡ kind_words f.0 f.1)) }
{
    let id = last_id(words)?;
    Some((BusKind::NoResp, id))
}

fn late(words: Words) -> Option<(BusKind, Option<u32>)>
    ensures { Reads result (λ f. IsKind f.0 × IfSome f.1 (λ n. n < 2 ^ 32) × (codes "late" ∷ words.entry ≡ kind_words f.0 f.1)) }
{
    let id = last_id(words)?;
    Some((BusKind::Late, id))
}

fn bad_block(words: Words) -> Option<(BusKind, Option<u32>)>
    ensures { Reads result (λ f. IsKind f.0 × IfSome f.1 (λ n. n < 2 ^ 32) × (codes "data" ∷ words.entry ≡ kind_words f.0 f.1)) }
{
    let (block, id) = block_and_id(words)?;
    Some((BusKind::Bad(block), id))
}

fn block_and_id(mut words: Words) -> Option<(u16, Option<u32>)>
    ensures { Reads result (λ f. (f.0 < 2 ^ 16) × IfSome f.1 (λ n. n < 2 ^ 32) × (words.entry ≡ decimal f.0 ∷ id_text f.1 ∷ [])) }
{
    let block = short(words.next()?)?;
    let id = last_id(words)?;
    Some((block, id))
}

pub fn last_why(mut words: Words) -> Option<Why>
    ensures { Reads result (λ why. words.entry ≡ why_text why ∷ []) }
{
    let why = why(words.next()?)?;
    words.end()?;
    Some(why)
}

fn why(word: &[u8]) -> Option<Why>
    ensures { Reads result (λ why. word.now ≡ why_text why) }
{
    match word {
        b"bus" => Some(Why::Bus),
        b"flash" => Some(Why::Flash),
        _ => None,
    }
}

pub fn last_limit(mut words: Words) -> Option<Limit>
    ensures { Reads result (λ limit. words.entry ≡ limit_text limit ∷ []) }
{
    let limit = limit(words.next()?)?;
    words.end()?;
    Some(limit)
}

fn limit(word: &[u8]) -> Option<Limit>
    ensures { Reads result (λ limit. word.now ≡ limit_text limit) }
{
    match word {
        b"range" => Some(Limit::Range),
        b"align" => Some(Limit::Align),
        _ => None,
    }
}

pub fn last_letter(mut words: Words) -> Option<Letter>
    ensures { Reads result (λ letter. words.entry ≡ letter_text letter ∷ []) }
{
    let letter = letter(words.next()?)?;
    words.end()?;
    Some(letter)
}

fn letter(word: &[u8]) -> Option<Letter>
    ensures { Reads result (λ letter. word.now ≡ letter_text letter) }
{
    match word {
        b"h" => Some(Letter::Host),
        b"e" => Some(Letter::Engine),
        b"c" => Some(Letter::Card),
        b"x" => Some(Letter::Cut),
        _ => None,
    }
}

pub fn last_end(mut words: Words) -> Option<End>
    ensures { Reads result (λ end. words.entry ≡ end_text end ∷ []) }
{
    let end = end(words.next()?)?;
    words.end()?;
    Some(end)
}

fn end(word: &[u8]) -> Option<End>
    ensures { Reads result (λ end. word.now ≡ end_text end) }
{
    match word {
        b"ok" => Some(End::Good),
        b"fault" => Some(End::Fault),
        b"dead" => Some(End::Dead),
        b"image" => Some(End::Image),
        _ => None,
    }
}

/// A sector's number and its bytes.
pub fn number_and_data(mut words: Words) -> Option<(u32, Block)>
    ensures { Reads result (λ f. (f.0 < 2 ^ 32) × IsBlock f.1 × (words.entry ≡ decimal f.0 ∷ data_words f.1)) }
{
    let number = read_decimal(words.next()?)?;
    let first = words.next()?;
    let value = data(first, words)?;
    Some((number, value))
}

/// A sector's bytes, from their first word on.
pub fn data(first: &[u8], words: Words) -> Option<Block>
    ensures { Reads result (λ value. IsBlock value × (first.now ∷ words.entry ≡ data_words value)) }
{
    match first {
        b"fill" => filled(words),
        _ => digits(first, words),
    }
}

fn filled(words: Words) -> Option<Block>
    ensures { Reads result (λ value. IsBlock value × (codes "fill" ∷ words.entry ≡ data_words value)) }
{
    let byte = last_byte(words)?;
    Some(Block([byte; 512]))
}

fn last_byte(mut words: Words) -> Option<u8>
    ensures { Reads result (λ byte. (byte < 2 ^ 8) × (words.entry ≡ hex_byte byte ∷ [])) }
{
    let byte = read_hex_byte(words.next()?)?;
    words.end()?;
    Some(byte)
}

// All digits of a sector, where not all its bytes are equal.
fn digits(word: &[u8], words: Words) -> Option<Block>
    requires { word.now ≢ codes "fill" }
    ensures { Reads result (λ value. IsBlock value × (word.now ∷ words.entry ≡ data_words value)) }
{
    words.end()?;
    let value = Block(read_hex_bytes(word)?);
    if one_byte(&value.0) {
        return None;
    }
    Some(value)
}
