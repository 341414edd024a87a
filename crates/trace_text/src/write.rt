ghost use Rattle.std.specs.Prelude.{◌≡◌, ◌+◌, ◌≤◌, ◌++◌, ◌∷◌, [], codes, decimal, length, OnErr};
ghost use Rattle.storage_model.specs.Count.{Later, Rose};
ghost use Rattle.io_edge.specs.Sink.{Wrote};
ghost use Rattle.arrayvec.specs.ArrayVec.{array_vec_len};
ghost use Rattle.text_words.specs.Words.{hex_word, spaced, word};
ghost use Rattle.trace_text.specs.Trace.{data_words, lines_text, id_text, kind_words, limit_text, why_text, letter_text, end_text, kept_words, item_words, item_text};

use io_edge::{Failed, Sink, put_all};
use storage_model::{Block, BusKind, End, Item, Letter, Limit, Why};
use text_words::Line;

/// Writes the line of an item, with its line feed, as one piece. After `Failed` a part of it was taken.
pub fn put_item<K: Sink>(item: &Item, out: &mut K) -> Result<(), Failed>
    ensures wrote { Wrote K.took out.old (item_text item.now) result out.new }
    ensures faults { Later (K.faults out.old) (K.faults out.new) }
    ensures failed { OnErr result (Rose (K.faults out.old) (K.faults out.new)) }
{
    let mut line = Line::new();
    write_line(&mut line, item);
    put_all(out, line.as_slice())
}

#[tactic(auto, unfolding(crate::specs::Trace::item_text))]
fn write_line(line: &mut Line, item: &Item)
    ensures { line.new.text.items ≡ item_text item.now }
{
    write_words(line, item);
    line.end();
}

fn write_words(line: &mut Line, item: &Item)
    ensures text { line.new.text.items ≡ spaced (item_words item.now) }
    ensures len { array_vec_len line.new.text ≤ 1270 }
{
    match item {
        Item::Card {
            sectors,
            depth,
            lines,
        } => card(line, *sectors, *depth, *lines),
        Item::Issue { id, tag } => numbers(line, b"issue", *id, u32::from(*tag)),
        Item::Params { n, id } => numbers(line, b"params", *n, *id),
        Item::Address { n, id } => numbers(line, b"address", *n, *id),
        Item::Poll { n, mask } => poll(line, *n, *mask),
        Item::Phase { n, id, count, kept } => phase(line, *n, *id, *count, *kept),
        Item::Discard { n } => with_number(line, b"discard", *n),
        Item::Bus { n, kind, id } => bus(line, *n, *kind, *id),
        Item::Flash { id } => flash(line, *id),
        Item::Recover => line.begin(b"recover"),
        Item::Irq { mask } => irq(line, *mask),
        Item::Done { id } => answer(line, *id, b"ok"),
        Item::Read { id } => answer(line, *id, b"data"),
        Item::Sector { value } => line.begin_data(&value.0),
        Item::Status { id, word } => status(line, *id, *word),
        Item::Fault { id, why } => fault(line, *id, *why),
        Item::Refused { id, why } => refused(line, *id, *why),
        Item::Cut => line.begin(b"cut"),
        Item::Lost { id } => answer(line, *id, b"lost"),
        Item::On => line.begin(b"on"),
        Item::Left { sector, value } => left(line, *sector, value),
        Item::Turn { letter } => turn(line, *letter),
        Item::Off { end } => off(line, *end),
    }
}

fn with_number(line: &mut Line, first: &[u8], number: u32)
    requires { length first.now ≤ 40 }
    ensures text { line.new.text.items ≡ first.now ++ word (decimal number) }
    ensures len { array_vec_len line.new.text ≤ 81 }
{
    line.begin(first);
    line.number(number);
}

fn numbers(line: &mut Line, first: &[u8], number: u32, last: u32)
    requires { length first.now ≤ 40 }
    ensures text { line.new.text.items ≡ first.now ++ word (decimal number) ++ word (decimal last) }
    ensures len { array_vec_len line.new.text ≤ 122 }
{
    with_number(line, first, number);
    line.number(last);
}

fn answer(line: &mut Line, id: u32, text: &[u8])
    requires { length text.now ≤ 40 }
    ensures text { line.new.text.items ≡ decimal id ++ word text.now }
    ensures len { array_vec_len line.new.text ≤ 81 }
{
    line.begin_number(id);
    line.word(text);
}

fn card(line: &mut Line, sectors: u32, depth: u8, lines: Option<u16>)
    ensures text { line.new.text.items ≡ codes "card" ++ word (decimal sectors) ++ word (decimal depth) ++ word (lines_text lines) }
    ensures len { array_vec_len line.new.text ≤ 240 }
{
    numbers(line, b"card", sectors, u32::from(depth));
    match lines {
        Some(lines) => line.number(u32::from(lines)),
        None => line.word(b"off"),
    }
}

fn poll(line: &mut Line, n: u32, mask: u32)
    ensures text { line.new.text.items ≡ codes "poll" ++ word (decimal n) ++ word (hex_word mask) }
    ensures len { array_vec_len line.new.text ≤ 240 }
{
    with_number(line, b"poll", n);
    line.hex_word(mask);
}

fn phase(line: &mut Line, n: u32, id: u32, count: u16, kept: bool)
    ensures text { line.new.text.items ≡ spaced (codes "phase" ∷ decimal n ∷ decimal id ∷ decimal count ∷ kept_words kept) }
    ensures len { array_vec_len line.new.text ≤ 240 }
{
    numbers(line, b"phase", n, id);
    line.number(u32::from(count));
    if kept {
        line.word(b"kept");
    }
}

fn bus(line: &mut Line, n: u32, kind: BusKind, id: Option<u32>)
    ensures text { line.new.text.items ≡ codes "bus" ++ word (decimal n) ++ word (spaced (kind_words kind id)) }
    ensures len { array_vec_len line.new.text ≤ 240 }
{
    with_number(line, b"bus", n);
    bus_kind(line, kind, id);
}

// What befell a command, and whose it was.
fn bus_kind(line: &mut Line, kind: BusKind, id: Option<u32>)
    requires { array_vec_len line.old.text ≤ 150 }
    ensures text { line.new.text.items ≡ line.old.text.items ++ word (spaced (kind_words kind id)) }
    ensures len { array_vec_len line.new.text ≤ array_vec_len line.old.text + 123 }
{
    match kind {
        BusKind::Lost => line.word(b"lost"),
        BusKind::NoResp => line.word(b"noresp"),
        BusKind::Bad(block) => {
            line.word(b"data");
            line.number(u32::from(block));
        }
        BusKind::Late => line.word(b"late"),
    }
    request(line, id);
}

// A request's number, or `-`.
fn request(line: &mut Line, id: Option<u32>)
    requires { array_vec_len line.old.text ≤ 240 }
    ensures text { line.new.text.items ≡ line.old.text.items ++ word (id_text id) }
    ensures len { array_vec_len line.new.text ≤ array_vec_len line.old.text + 41 }
{
    match id {
        Some(id) => line.number(id),
        None => line.word(b"-"),
    }
}

fn flash(line: &mut Line, id: Option<u32>)
    ensures text { line.new.text.items ≡ codes "flash" ++ word (id_text id) }
    ensures len { array_vec_len line.new.text ≤ 240 }
{
    line.begin(b"flash");
    request(line, id);
}

fn irq(line: &mut Line, mask: u32)
    ensures text { line.new.text.items ≡ codes "irq" ++ word (hex_word mask) }
    ensures len { array_vec_len line.new.text ≤ 240 }
{
    line.begin(b"irq");
    line.hex_word(mask);
}

fn status(line: &mut Line, id: u32, number: u32)
    ensures text { line.new.text.items ≡ decimal id ++ word (codes "status") ++ word (hex_word number) }
    ensures len { array_vec_len line.new.text ≤ 240 }
{
    answer(line, id, b"status");
    line.hex_word(number);
}

fn fault(line: &mut Line, id: u32, why: Why)
    ensures text { line.new.text.items ≡ decimal id ++ word (codes "fault") ++ word (why_text why) }
    ensures len { array_vec_len line.new.text ≤ 240 }
{
    answer(line, id, b"fault");
    match why {
        Why::Bus => line.word(b"bus"),
        Why::Flash => line.word(b"flash"),
    }
}

fn refused(line: &mut Line, id: u32, why: Limit)
    ensures text { line.new.text.items ≡ decimal id ++ word (codes "refused") ++ word (limit_text why) }
    ensures len { array_vec_len line.new.text ≤ 240 }
{
    answer(line, id, b"refused");
    match why {
        Limit::Range => line.word(b"range"),
        Limit::Align => line.word(b"align"),
    }
}

fn left(line: &mut Line, sector: u32, value: &Block)
    ensures text { line.new.text.items ≡ spaced (codes "left" ∷ decimal sector ∷ data_words value.now) }
    ensures len { array_vec_len line.new.text ≤ 1270 }
{
    with_number(line, b"left", sector);
    line.data(&value.0);
}

fn turn(line: &mut Line, letter: Letter)
    ensures text { line.new.text.items ≡ codes "turn" ++ word (letter_text letter) }
    ensures len { array_vec_len line.new.text ≤ 240 }
{
    line.begin(b"turn");
    line.word(match letter {
        Letter::Host => b"h",
        Letter::Engine => b"e",
        Letter::Card => b"c",
        Letter::Cut => b"x",
    });
}

fn off(line: &mut Line, end: End)
    ensures text { line.new.text.items ≡ codes "off" ++ word (end_text end) }
    ensures len { array_vec_len line.new.text ≤ 240 }
{
    line.begin(b"off");
    match end {
        End::Good => line.word(b"ok"),
        End::Fault => line.word(b"fault"),
        End::Dead => line.word(b"dead"),
        End::Image => line.word(b"image"),
    }
}
