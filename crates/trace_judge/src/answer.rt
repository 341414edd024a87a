// The line and the status of each answer.
ghost use Rattle.std.specs.Prelude.{◌≡◌, ◌≤◌, ◌++◌, codes, decimal, length};
ghost use Rattle.io_edge.specs.Sink.{Wrote};
ghost use Rattle.trace_judge.specs.Answers.{answer_text, status_of};

use crate::judge::Verdict;
use arrayvec::ArrayVec;
use io_edge::{Failed, Sink, put_all};
use itoa::Buffer;

/// What the program says. The lines of texts are counted from 1.
#[derive(Clone, Copy)]
pub enum Answer {
    Judged(Verdict),
    /// The words are not four.
    Usage,
    BadRequests { line: u32 },
    BadFaults { line: u32 },
    BadTrace { line: u32 },
    BadImage,
    /// A file can't be read.
    ReadFault,
    NoMemory,
}

/// The status of a run that judges nothing.
pub const FAILED: u8 = 2;

impl Answer {
    /// The exit status.
    pub fn status(self) -> u8
        ensures { result ≡ status_of self }
    {
        match self {
            Answer::Judged(Verdict::Accepted | Verdict::Front) => 0,
            Answer::Judged(Verdict::Rejected { .. }) => 1,
            _ => FAILED,
        }
    }

    /// Writes the line, as one piece.
    pub fn put<K: Sink>(self, out: &mut K) -> Result<(), Failed>
        ensures { Wrote K.took out.old (answer_text self) result out.new }
    {
        match self {
            Answer::Judged(Verdict::Accepted) => put_all(out, b"accepted\n"),
            Answer::Judged(Verdict::Front) => put_all(out, b"accepted so far\n"),
            Answer::Judged(Verdict::Rejected { line, rule }) => put_rejected(line, rule, out),
            Answer::Usage => put_all(out, b"usage\n"),
            Answer::BadRequests { line } => put_numbered(b"bad requests ", line, out),
            Answer::BadFaults { line } => put_numbered(b"bad faults ", line, out),
            Answer::BadTrace { line } => put_numbered(b"bad trace ", line, out),
            Answer::BadImage => put_all(out, b"bad image\n"),
            Answer::ReadFault => put_all(out, b"read fault\n"),
            Answer::NoMemory => put_all(out, b"no memory\n"),
        }
    }
}

fn put_numbered<K: Sink>(text: &[u8], number: u32, out: &mut K) -> Result<(), Failed>
    requires { length text.now ≤ 40 }
    ensures { Wrote K.took out.old (text.now ++ decimal number ++ codes "\n") result out.new }
{
    let mut line: ArrayVec<u8, 96> = ArrayVec::new();
    let mut buffer = Buffer::new();
    line.try_extend_from_slice(text).unwrap();
    line.try_extend_from_slice(buffer.format(number).as_bytes())
        .unwrap();
    line.push(b'\n');
    put_all(out, line.as_slice())
}

// The line that is rejected and the rule that it breaks.
fn put_rejected<K: Sink>(line: usize, rule: u8, out: &mut K) -> Result<(), Failed>
    ensures { Wrote K.took out.old (codes "rejected " ++ decimal line ++ codes " " ++ decimal rule ++ codes "\n") result out.new }
{
    let mut text: ArrayVec<u8, 96> = ArrayVec::new();
    let mut buffer = Buffer::new();
    text.try_extend_from_slice(b"rejected ").unwrap();
    text.try_extend_from_slice(buffer.format(line).as_bytes())
        .unwrap();
    text.push(b' ');
    text.try_extend_from_slice(buffer.format(rule).as_bytes())
        .unwrap();
    text.push(b'\n');
    put_all(out, text.as_slice())
}
