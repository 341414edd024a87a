// The lines that tell the counts of a load.
ghost use Rattle.std.specs.Prelude.{◌≡◌, ◌≤◌, ◌+◌, ◌++◌, ◌∷◌, [], length, decimal, OnErr};
ghost use Rattle.storage_model.specs.Count.{Later, Rose};
ghost use Rattle.arrayvec.specs.ArrayVec.{array_vec_len};
ghost use Rattle.io_edge.specs.Sink.{Wrote};
ghost use Rattle.text_words.specs.Words.{line};
ghost use Rattle.load_count.specs.Told.{counts_text, end_text};

use crate::counts::Counts;
use arrayvec::ArrayVec;
use io_edge::{Failed, Sink, put_all};
use itoa::Buffer;
use storage_model::End;

/// Room for the eight lines.
const ROOM: usize = 512;

/// How many requests a load has.
const REQUESTS: u64 = 4096;

/// Writes the eight lines, as one piece.
pub fn put_counts<K: Sink>(counts: &Counts, out: &mut K) -> Result<(), Failed>
    ensures wrote { Wrote K.took out.old (counts_text counts.now) result out.new }
    ensures faults { Later (K.faults out.old) (K.faults out.new) }
    ensures failed { OnErr result (Rose (K.faults out.old) (K.faults out.new)) }
{
    let mut text: ArrayVec<u8, ROOM> = ArrayVec::new();
    add(&mut text, b"requests", REQUESTS);
    add(&mut text, b"ok", counts.ok);
    add(&mut text, b"data", counts.reads);
    add(&mut text, b"fault", counts.fault);
    add(&mut text, b"lost", counts.lost);
    add(&mut text, b"phases", counts.phases);
    add(&mut text, b"kept", counts.kept);
    add_end(&mut text, counts.end);
    put_all(out, text.as_slice())
}

// A line of a name and a number.
fn add(text: &mut ArrayVec<u8, ROOM>, name: &[u8], number: u64)
    requires short { length name.now ≤ 8 }
    requires room { array_vec_len text.old ≤ 400 }
    ensures text { text.new.items ≡ text.old.items ++ line (name.now ∷ decimal number ∷ []) }
    ensures len { array_vec_len text.new ≤ array_vec_len text.old + 50 }
{
    let mut buffer = Buffer::new();
    text.try_extend_from_slice(name).unwrap();
    text.push(b' ');
    text.try_extend_from_slice(buffer.format(number).as_bytes())
        .unwrap();
    text.push(b'\n');
}

// The line of the end, if there was one.
fn add_end(text: &mut ArrayVec<u8, ROOM>, end: Option<End>)
    requires room { array_vec_len text.old ≤ 400 }
    ensures text { text.new.items ≡ text.old.items ++ end_text end }
{
    match end {
        None => {}
        Some(End::Good) => text.try_extend_from_slice(b"off ok\n").unwrap(),
        Some(End::Fault) => text.try_extend_from_slice(b"off fault\n").unwrap(),
        Some(End::Dead) => text.try_extend_from_slice(b"off dead\n").unwrap(),
        Some(End::Image) => text.try_extend_from_slice(b"off image\n").unwrap(),
    }
}
