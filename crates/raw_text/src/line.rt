// The operation of a line.
ghost use Rattle.std.specs.Prelude.{◌≡◌, ◌∷◌, IfOk, codes};
ghost use Rattle.text_words.specs.Reads.{Reads};
ghost use Rattle.text_words.specs.Words.{spaced};
ghost use Rattle.raw_text.specs.Names.{keyword_text};
ghost use Rattle.raw_text.specs.Raw.{IsOp, op_words};

use crate::fields::{
    address_and_word, filled_range, last_byte, last_number, read_bytes, register_and_value,
    shown_range,
};
use crate::keyword::{Keyword, read_keyword};
use crate::op::RawOp;
use std::alloc::Global;
use storage_model::NoMemory;
use text_words::Words;

/// The operation of a line, given without its line feed.
pub fn read_op(alloc: Global, line: &[u8]) -> Result<Option<RawOp>, NoMemory>
    ensures { IfOk result (λ read. Reads read (λ op. IsOp op × (line.now ≡ spaced (op_words op)))) }
{
    let mut words = Words::of(line);
    let Some(first) = words.next() else {
        return Ok(None);
    };
    op_of(alloc, first, words)
}

fn op_of(alloc: Global, first: &[u8], words: Words) -> Result<Option<RawOp>, NoMemory>
    ensures { IfOk result (λ read. Reads read (λ op. IsOp op × (first.now ∷ words.entry ≡ op_words op))) }
{
    let Some(keyword) = read_keyword(first) else {
        return Ok(None);
    };
    named(alloc, keyword, words)
}

fn named(alloc: Global, keyword: Keyword, words: Words) -> Result<Option<RawOp>, NoMemory>
    ensures { IfOk result (λ read. Reads read (λ op. IsOp op × (keyword_text keyword ∷ words.entry ≡ op_words op))) }
{
    match keyword {
        Keyword::Poke => poke(alloc, words),
        Keyword::Fill => Ok(fill(words)),
        Keyword::Peek => Ok(peek(words)),
        Keyword::Write => Ok(write(words)),
        Keyword::Read => Ok(read(words)),
        Keyword::Go => Ok(go(words)),
        Keyword::Show => Ok(show(words)),
        Keyword::Discard => Ok(discard(words)),
    }
}

fn poke(alloc: Global, words: Words) -> Result<Option<RawOp>, NoMemory>
    ensures { IfOk result (λ read. Reads read (λ op. IsOp op × (codes "poke" ∷ words.entry ≡ op_words op))) }
{
    let Some((at, digits)) = address_and_word(words) else {
        return Ok(None);
    };
    let Some(bytes) = read_bytes(alloc, digits)? else {
        return Ok(None);
    };
    Ok(Some(RawOp::Poke { at, bytes }))
}

fn fill(words: Words) -> Option<RawOp>
    ensures { Reads result (λ op. IsOp op × (codes "fill" ∷ words.entry ≡ op_words op)) }
{
    let (at, len, value) = filled_range(words)?;
    Some(RawOp::Fill { at, len, value })
}

fn peek(words: Words) -> Option<RawOp>
    ensures { Reads result (λ op. IsOp op × (codes "peek" ∷ words.entry ≡ op_words op)) }
{
    let (at, len) = shown_range(words)?;
    Some(RawOp::Peek { at, len })
}

fn write(words: Words) -> Option<RawOp>
    ensures { Reads result (λ op. IsOp op × (codes "w" ∷ words.entry ≡ op_words op)) }
{
    let (reg, value) = register_and_value(words)?;
    Some(RawOp::Write { reg, value })
}

fn read(words: Words) -> Option<RawOp>
    ensures { Reads result (λ op. IsOp op × (codes "r" ∷ words.entry ≡ op_words op)) }
{
    let reg = last_byte(words)?;
    Some(RawOp::Read { reg })
}

fn go(words: Words) -> Option<RawOp>
    ensures { Reads result (λ op. IsOp op × (codes "go" ∷ words.entry ≡ op_words op)) }
{
    words.end()?;
    Some(RawOp::Go)
}

fn show(words: Words) -> Option<RawOp>
    ensures { Reads result (λ op. IsOp op × (codes "show" ∷ words.entry ≡ op_words op)) }
{
    let sector = last_number(words)?;
    Some(RawOp::Show { sector })
}

fn discard(words: Words) -> Option<RawOp>
    ensures { Reads result (λ op. IsOp op × (codes "discard" ∷ words.entry ≡ op_words op)) }
{
    words.end()?;
    Some(RawOp::Discard)
}
