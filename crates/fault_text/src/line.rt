// One line.
ghost use Rattle.std.specs.Prelude.{◌≡◌, ◌∷◌, IfOk, codes};
ghost use Rattle.text_words.specs.Reads.{Reads};
ghost use Rattle.text_words.specs.Words.{spaced};
ghost use Rattle.fault_text.specs.Lines.{IsLine, keyword_text, line_words};

use crate::fields::{
    bus_fields, fetch_fields, last_hex, last_letters, last_number, program_fields,
};
use crate::keyword::{Keyword, read_keyword};
use std::alloc::Global;
use storage_model::{BusKind, LetterList, NoMemory};
use text_words::Words;

/// What one line of a fault text says.
#[derive(Debug, Drop)]
pub enum FaultLine {
    /// The tasks that a poll finds ready.
    Ready { mask: u32 },
    /// The fault of a bus command.
    Bus { n: u32, kind: BusKind },
    /// A program that fails, or is cut, and the granules that are new after it.
    Program { n: u32, cut: bool, mask: u8 },
    /// A fetch that fails.
    Fetch { n: u32 },
    /// A cut of the power once so many commands were sent.
    Cut { n: u32 },
    /// Who acts, one letter for each event.
    Turn { letters: LetterList },
}

/// The line of a text that is given without its line feed. The only error is want of memory.
pub fn read_line(alloc: Global, text: &[u8]) -> Result<Option<FaultLine>, NoMemory>
    ensures { IfOk result (λ read. Reads read (λ line. IsLine line × (text.now ≡ spaced (line_words line)))) }
{
    let mut words = Words::of(text);
    match words.next() {
        Some(first) => line_of(alloc, first, words),
        None => Ok(None),
    }
}

fn line_of(alloc: Global, first: &[u8], words: Words) -> Result<Option<FaultLine>, NoMemory>
    ensures { IfOk result (λ read. Reads read (λ line. IsLine line × (first.now ∷ words.entry ≡ line_words line))) }
{
    match read_keyword(first) {
        Some(keyword) => named(alloc, keyword, words),
        None => Ok(None),
    }
}

fn named(alloc: Global, keyword: Keyword, words: Words) -> Result<Option<FaultLine>, NoMemory>
    ensures { IfOk result (λ read. Reads read (λ line. IsLine line × (keyword_text keyword ∷ words.entry ≡ line_words line))) }
{
    match keyword {
        Keyword::Ready => Ok(ready(words)),
        Keyword::Bus => Ok(bus(words)),
        Keyword::Program => Ok(program(words)),
        Keyword::Fetch => Ok(fetch(words)),
        Keyword::Cut => Ok(cut(words)),
        Keyword::Turn => turn(alloc, words),
    }
}

fn ready(words: Words) -> Option<FaultLine>
    ensures { Reads result (λ line. IsLine line × (codes "ready" ∷ words.entry ≡ line_words line)) }
{
    let mask = last_hex(words)?;
    Some(FaultLine::Ready { mask })
}

fn bus(words: Words) -> Option<FaultLine>
    ensures { Reads result (λ line. IsLine line × (codes "bus" ∷ words.entry ≡ line_words line)) }
{
    let (n, kind) = bus_fields(words)?;
    Some(FaultLine::Bus { n, kind })
}

fn program(words: Words) -> Option<FaultLine>
    ensures { Reads result (λ line. IsLine line × (codes "program" ∷ words.entry ≡ line_words line)) }
{
    let (n, cut, mask) = program_fields(words)?;
    Some(FaultLine::Program { n, cut, mask })
}

fn fetch(words: Words) -> Option<FaultLine>
    ensures { Reads result (λ line. IsLine line × (codes "fetch" ∷ words.entry ≡ line_words line)) }
{
    let n = fetch_fields(words)?;
    Some(FaultLine::Fetch { n })
}

fn cut(words: Words) -> Option<FaultLine>
    ensures { Reads result (λ line. IsLine line × (codes "cut" ∷ words.entry ≡ line_words line)) }
{
    let n = last_number(words)?;
    Some(FaultLine::Cut { n })
}

fn turn(alloc: Global, words: Words) -> Result<Option<FaultLine>, NoMemory>
    ensures { IfOk result (λ read. Reads read (λ line. IsLine line × (codes "turn" ∷ words.entry ≡ line_words line))) }
{
    match last_letters(alloc, words)? {
        Some(letters) => Ok(Some(FaultLine::Turn { letters })),
        None => Ok(None),
    }
}
