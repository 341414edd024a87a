ghost use Rattle.std.specs.Prelude.{◌≡◌, ◌≤◌, ◌++◌, ◌∷◌, [], codes, decimal, length, OnErr};
ghost use Rattle.storage_model.specs.Count.{Later, Rose};
ghost use Rattle.hex.specs.Hex.{encode_lower};
ghost use Rattle.io_edge.specs.Sink.{Wrote};
ghost use Rattle.arrayvec.specs.ArrayVec.{array_vec_len};
ghost use Rattle.text_words.specs.Words.{hex_byte, hex_word, spaced, word};
ghost use Rattle.trace_text.specs.Trace.{data_words};
ghost use Rattle.cq_task.specs.declared.slot.DropCause.TheVariants.{Chain};
ghost use Rattle.raw_lines.specs.RawLine.{cause_text, raw_line_text, raw_line_words};

use crate::raw_line::RawLine;
use cq_chain::ChainFault;
use cq_desc::DescFault;
use cq_task::DropCause;
use io_edge::{Failed, Sink, put_all};
use storage_model::Block;
use text_words::Line;

/// Writes a line, with its line feed, as one piece. After `Failed` a part of it was taken.
pub fn put_raw_line<K: Sink>(line: &RawLine, out: &mut K) -> Result<(), Failed>
    ensures wrote { Wrote K.took out.old (raw_line_text line.now) result out.new }
    ensures faults { Later (K.faults out.old) (K.faults out.new) }
    ensures failed { OnErr result (Rose (K.faults out.old) (K.faults out.new)) }
{
    let mut text = Line::new();
    write_line(&mut text, line);
    put_all(out, text.as_slice())
}

#[tactic(auto, unfolding(crate::specs::RawLine::raw_line_text))]
fn write_line(line: &mut Line, shown: &RawLine)
    ensures { line.new.text.items ≡ raw_line_text shown.now }
{
    write_words(line, shown);
    line.end();
}

fn write_words(line: &mut Line, shown: &RawLine)
    ensures text { line.new.text.items ≡ spaced (raw_line_words shown.now) }
    ensures len { array_vec_len line.new.text ≤ 1270 }
{
    match shown {
        RawLine::Done { slot } => done(line, *slot),
        RawLine::Dropped { slot, cause } => dropped(line, *slot, *cause),
        RawLine::Stopped { slot, response } => stopped(line, *slot, *response),
        RawLine::Memory { bytes } => memory(line, bytes.as_slice()),
        RawLine::Register { reg, value } => register(line, *reg, *value),
        RawLine::Sector { value } => sector(line, value),
        RawLine::Outside => line.begin(b"outside"),
        RawLine::NoRegister { reg } => no_register(line, *reg),
        RawLine::Unread => line.begin(b"unread"),
    }
}

fn task(line: &mut Line, slot: u8)
    ensures text { line.new.text.items ≡ codes "task" ++ word (decimal slot) }
    ensures len { array_vec_len line.new.text ≤ 81 }
{
    line.begin(b"task");
    line.number(u32::from(slot));
}

fn done(line: &mut Line, slot: u8)
    ensures text { line.new.text.items ≡ codes "task" ++ word (decimal slot) ++ word (codes "ok") }
    ensures len { array_vec_len line.new.text ≤ 240 }
{
    task(line, slot);
    line.word(b"ok");
}

fn dropped(line: &mut Line, slot: u8, cause: DropCause)
    ensures text { line.new.text.items ≡ codes "task" ++ word (decimal slot) ++ word (codes "bad") ++ word (cause_text cause) }
    ensures len { array_vec_len line.new.text ≤ 240 }
{
    task(line, slot);
    line.word(b"bad");
    line.word(cause_word(cause));
}

fn cause_word(cause: DropCause) -> &'static [u8]
    ensures text { result.now ≡ cause_text cause }
    ensures short { length result.now ≤ 40 }
{
    match cause {
        DropCause::Task(DescFault::NotValid) => b"notvalid",
        DropCause::Task(DescFault::BadAct) => b"badact",
        DropCause::Chain(fault) => chain_word(fault),
    }
}

fn chain_word(fault: ChainFault) -> &'static [u8]
    ensures text { result.now ≡ cause_text (Chain fault) }
    ensures short { length result.now ≤ 40 }
{
    match fault {
        ChainFault::NotValid => b"notvalid",
        ChainFault::BadAct => b"badact",
        ChainFault::Hole => b"hole",
        ChainFault::Long => b"long",
        ChainFault::Short => b"short",
        ChainFault::TooMany => b"toomany",
    }
}

fn stopped(line: &mut Line, slot: u8, response: u32)
    ensures text { line.new.text.items ≡ codes "task" ++ word (decimal slot) ++ word (codes "error") ++ word (hex_word response) }
    ensures len { array_vec_len line.new.text ≤ 240 }
{
    task(line, slot);
    line.word(b"error");
    line.hex_word(response);
}

fn memory(line: &mut Line, bytes: &[u8])
    requires { length bytes.now ≤ 512 }
    ensures text { line.new.text.items ≡ codes "m" ++ word (encode_lower bytes.now) }
    ensures len { array_vec_len line.new.text ≤ 1270 }
{
    line.begin(b"m");
    line.bytes(bytes);
}

fn register(line: &mut Line, reg: u8, value: u32)
    ensures text { line.new.text.items ≡ codes "r" ++ word (hex_byte reg) ++ word (hex_word value) }
    ensures len { array_vec_len line.new.text ≤ 240 }
{
    line.begin(b"r");
    line.hex_byte(reg);
    line.hex_word(value);
}

fn sector(line: &mut Line, value: &Block)
    ensures text { line.new.text.items ≡ spaced (codes "s" ∷ data_words value.now) }
    ensures len { array_vec_len line.new.text ≤ 1270 }
{
    line.begin(b"s");
    line.data(&value.0);
}

fn no_register(line: &mut Line, reg: u8)
    ensures text { line.new.text.items ≡ codes "noreg" ++ word (hex_byte reg) }
    ensures len { array_vec_len line.new.text ≤ 240 }
{
    line.begin(b"noreg");
    line.hex_byte(reg);
}
