// Refusals: a line and a status in place of a command's own.
ghost use Rattle.std.specs.Prelude.{◌≡◌, ◌≤◌, ◌++◌, length, codes, decimal, OnErr};
ghost use Rattle.storage_model.specs.Count.{Later, Rose};
ghost use Rattle.io_edge.specs.Sink.{Wrote};
ghost use Rattle.cqmmc_top.specs.Refusal.{status_of, refusal_text};

use arrayvec::ArrayVec;
use io_edge::{Failed, Sink, put_all};
use itoa::Buffer;

/// Why a command does nothing. The line of a bad text is counted from 1.
#[derive(Clone, Copy, Debug, PartialEq, Eq)]
pub enum Refusal {
    /// The words are none of the forms.
    Usage,
    BadRequests { line: u32 },
    BadFaults { line: u32 },
    BadScript { line: u32 },
    /// A text's source failed.
    ReadFault,
    /// The pages are no image, or too few for one.
    BadImage,
    /// The array failed in an opening, or while an image was made.
    ArrayFault,
    /// Eight openings in a row were cut, or an image that was being made.
    NoPower,
    NoMemory,
}

impl Refusal {
    /// The exit status.
    pub fn status(self) -> u8
        ensures { result ≡ status_of self }
    {
        match self {
            Refusal::Usage => 2,
            Refusal::BadRequests { .. } | Refusal::BadFaults { .. } => 3,
            Refusal::BadScript { .. } => 3,
            Refusal::ReadFault => 4,
            Refusal::BadImage => 6,
            Refusal::ArrayFault => 7,
            Refusal::NoPower => 8,
            Refusal::NoMemory => 9,
        }
    }

    /// Writes the line, as one piece.
    pub fn put<K: Sink>(self, out: &mut K) -> Result<(), Failed>
        ensures wrote { Wrote K.took out.old (refusal_text self) result out.new }
        ensures faults { Later (K.faults out.old) (K.faults out.new) }
        ensures failed { OnErr result (Rose (K.faults out.old) (K.faults out.new)) }
    {
        match self {
            Refusal::Usage => put_all(out, b"usage\n"),
            Refusal::BadRequests { line } => put_numbered(b"bad requests ", line, out),
            Refusal::BadFaults { line } => put_numbered(b"bad faults ", line, out),
            Refusal::BadScript { line } => put_numbered(b"bad script ", line, out),
            Refusal::ReadFault => put_all(out, b"read fault\n"),
            Refusal::BadImage => put_all(out, b"bad image\n"),
            Refusal::ArrayFault => put_all(out, b"array fault\n"),
            Refusal::NoPower => put_all(out, b"no power\n"),
            Refusal::NoMemory => put_all(out, b"no memory\n"),
        }
    }
}

/// Writes a text, a number and a line feed, as one piece.
pub fn put_numbered<K: Sink>(text: &[u8], number: u32, out: &mut K) -> Result<(), Failed>
    requires { length text.now ≤ 40 }
    ensures wrote { Wrote K.took out.old (text.now ++ decimal number ++ codes "\n") result out.new }
    ensures faults { Later (K.faults out.old) (K.faults out.new) }
    ensures failed { OnErr result (Rose (K.faults out.old) (K.faults out.new)) }
{
    let mut line: ArrayVec<u8, 96> = ArrayVec::new();
    let mut buffer = Buffer::new();
    line.try_extend_from_slice(text).unwrap();
    line.try_extend_from_slice(buffer.format(number).as_bytes())
        .unwrap();
    line.push(b'\n');
    put_all(out, line.as_slice())
}
