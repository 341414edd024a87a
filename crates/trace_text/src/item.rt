// The item of a line.
ghost use Rattle.std.specs.Prelude.{◌≡◌, ◌∷◌, codes, decimal};
ghost use Rattle.text_words.specs.Reads.{Reads};
ghost use Rattle.text_words.specs.Words.{spaced};
ghost use Rattle.trace_text.specs.Names.{keyword_text, outcome_text};
ghost use Rattle.trace_text.specs.Trace.{IsItem, item_words};

use crate::fields::{
    bus_fields, data, geometry, last_end, last_hex, last_id, last_letter, last_limit, last_why,
    number, number_and_data, number_and_hex, phase_fields, tagged, two_numbers,
};
use crate::keyword::{Keyword, Outcome, read_keyword, read_outcome};
use storage_model::Item;
use text_words::{Words, read_decimal};

/// The item of a line, given without its line feed.
pub fn read_item(line: &[u8]) -> Option<Item>
    ensures { Reads result (λ item. IsItem item × (line.now ≡ spaced (item_words item))) }
{
    let mut words = Words::of(line);
    let first = words.next()?;
    item_of(first, words)
}

fn item_of(first: &[u8], words: Words) -> Option<Item>
    ensures { Reads result (λ item. IsItem item × (first.now ∷ words.entry ≡ item_words item)) }
{
    if let Some(keyword) = read_keyword(first) {
        return named(keyword, words);
    }
    if let Some(id) = read_decimal(first) {
        return answer(id, words);
    }
    let value = data(first, words)?;
    Some(Item::Sector { value })
}

fn named(keyword: Keyword, words: Words) -> Option<Item>
    ensures { Reads result (λ item. IsItem item × (keyword_text keyword ∷ words.entry ≡ item_words item)) }
{
    match keyword {
        Keyword::Card => card(words),
        Keyword::Issue => issue(words),
        Keyword::Params => params(words),
        Keyword::Address => address(words),
        Keyword::Poll => poll(words),
        Keyword::Phase => phase(words),
        Keyword::Discard => discard(words),
        Keyword::Bus => bus(words),
        Keyword::Flash => flash(words),
        Keyword::Recover => recover(words),
        Keyword::Irq => irq(words),
        Keyword::Cut => cut(words),
        Keyword::On => on(words),
        Keyword::Left => left(words),
        Keyword::Turn => turn(words),
        Keyword::Off => off(words),
    }
}

fn card(words: Words) -> Option<Item>
    ensures { Reads result (λ item. IsItem item × (codes "card" ∷ words.entry ≡ item_words item)) }
{
    let (sectors, depth, lines) = geometry(words)?;
    Some(Item::Card {
        sectors,
        depth,
        lines,
    })
}

fn issue(words: Words) -> Option<Item>
    ensures { Reads result (λ item. IsItem item × (codes "issue" ∷ words.entry ≡ item_words item)) }
{
    let (id, tag) = tagged(words)?;
    Some(Item::Issue { id, tag })
}

fn params(words: Words) -> Option<Item>
    ensures { Reads result (λ item. IsItem item × (codes "params" ∷ words.entry ≡ item_words item)) }
{
    let (n, id) = two_numbers(words)?;
    Some(Item::Params { n, id })
}

fn address(words: Words) -> Option<Item>
    ensures { Reads result (λ item. IsItem item × (codes "address" ∷ words.entry ≡ item_words item)) }
{
    let (n, id) = two_numbers(words)?;
    Some(Item::Address { n, id })
}

fn poll(words: Words) -> Option<Item>
    ensures { Reads result (λ item. IsItem item × (codes "poll" ∷ words.entry ≡ item_words item)) }
{
    let (n, mask) = number_and_hex(words)?;
    Some(Item::Poll { n, mask })
}

fn phase(words: Words) -> Option<Item>
    ensures { Reads result (λ item. IsItem item × (codes "phase" ∷ words.entry ≡ item_words item)) }
{
    let (n, id, count, kept) = phase_fields(words)?;
    Some(Item::Phase { n, id, count, kept })
}

fn discard(words: Words) -> Option<Item>
    ensures { Reads result (λ item. IsItem item × (codes "discard" ∷ words.entry ≡ item_words item)) }
{
    let n = number(words)?;
    Some(Item::Discard { n })
}

fn bus(words: Words) -> Option<Item>
    ensures { Reads result (λ item. IsItem item × (codes "bus" ∷ words.entry ≡ item_words item)) }
{
    let (n, kind, id) = bus_fields(words)?;
    Some(Item::Bus { n, kind, id })
}

fn flash(words: Words) -> Option<Item>
    ensures { Reads result (λ item. IsItem item × (codes "flash" ∷ words.entry ≡ item_words item)) }
{
    let id = last_id(words)?;
    Some(Item::Flash { id })
}

fn irq(words: Words) -> Option<Item>
    ensures { Reads result (λ item. IsItem item × (codes "irq" ∷ words.entry ≡ item_words item)) }
{
    let mask = last_hex(words)?;
    Some(Item::Irq { mask })
}

fn left(words: Words) -> Option<Item>
    ensures { Reads result (λ item. IsItem item × (codes "left" ∷ words.entry ≡ item_words item)) }
{
    let (sector, value) = number_and_data(words)?;
    Some(Item::Left { sector, value })
}

fn turn(words: Words) -> Option<Item>
    ensures { Reads result (λ item. IsItem item × (codes "turn" ∷ words.entry ≡ item_words item)) }
{
    let letter = last_letter(words)?;
    Some(Item::Turn { letter })
}

fn off(words: Words) -> Option<Item>
    ensures { Reads result (λ item. IsItem item × (codes "off" ∷ words.entry ≡ item_words item)) }
{
    let end = last_end(words)?;
    Some(Item::Off { end })
}

fn recover(words: Words) -> Option<Item>
    ensures { Reads result (λ item. IsItem item × (codes "recover" ∷ words.entry ≡ item_words item)) }
{
    words.end()?;
    Some(Item::Recover)
}

fn cut(words: Words) -> Option<Item>
    ensures { Reads result (λ item. IsItem item × (codes "cut" ∷ words.entry ≡ item_words item)) }
{
    words.end()?;
    Some(Item::Cut)
}

fn on(words: Words) -> Option<Item>
    ensures { Reads result (λ item. IsItem item × (codes "on" ∷ words.entry ≡ item_words item)) }
{
    words.end()?;
    Some(Item::On)
}

// The answer to request `id`.
fn answer(id: u32, mut words: Words) -> Option<Item>
    ensures { Reads result (λ item. IsItem item × (decimal id ∷ words.entry ≡ item_words item)) }
{
    let first = words.next()?;
    let outcome = read_outcome(first)?;
    answer_of(id, outcome, words)
}

fn answer_of(id: u32, outcome: Outcome, words: Words) -> Option<Item>
    ensures { Reads result (λ item. IsItem item × (decimal id ∷ outcome_text outcome ∷ words.entry ≡ item_words item)) }
{
    match outcome {
        Outcome::Done => done(id, words),
        Outcome::Read => read(id, words),
        Outcome::Status => status(id, words),
        Outcome::Fault => fault(id, words),
        Outcome::Refused => refused(id, words),
        Outcome::Lost => lost(id, words),
    }
}

fn done(id: u32, words: Words) -> Option<Item>
    ensures { Reads result (λ item. IsItem item × (decimal id ∷ codes "ok" ∷ words.entry ≡ item_words item)) }
{
    words.end()?;
    Some(Item::Done { id })
}

fn read(id: u32, words: Words) -> Option<Item>
    ensures { Reads result (λ item. IsItem item × (decimal id ∷ codes "data" ∷ words.entry ≡ item_words item)) }
{
    words.end()?;
    Some(Item::Read { id })
}

fn lost(id: u32, words: Words) -> Option<Item>
    ensures { Reads result (λ item. IsItem item × (decimal id ∷ codes "lost" ∷ words.entry ≡ item_words item)) }
{
    words.end()?;
    Some(Item::Lost { id })
}

fn status(id: u32, words: Words) -> Option<Item>
    ensures { Reads result (λ item. IsItem item × (decimal id ∷ codes "status" ∷ words.entry ≡ item_words item)) }
{
    let word = last_hex(words)?;
    Some(Item::Status { id, word })
}

fn fault(id: u32, words: Words) -> Option<Item>
    ensures { Reads result (λ item. IsItem item × (decimal id ∷ codes "fault" ∷ words.entry ≡ item_words item)) }
{
    let why = last_why(words)?;
    Some(Item::Fault { id, why })
}

fn refused(id: u32, words: Words) -> Option<Item>
    ensures { Reads result (λ item. IsItem item × (decimal id ∷ codes "refused" ∷ words.entry ≡ item_words item)) }
{
    let why = last_limit(words)?;
    Some(Item::Refused { id, why })
}
