ghost use Rattle.std.specs.Prelude.{◌≡◌, ◌<◌, ◌≤◌, IsErr, List, None, length, ℕ, IfOk, MatchResult, OnOk, OnErr};
ghost use Rattle.std.specs.Io.KnownBytes.{Keeps, ReadConsumes, WriteAppends};
ghost use Rattle.storage_model.specs.Count.{Later, RaisedByOne, Rose};
ghost use Rattle.io_edge.specs.Counter.{counted};
ghost use Rattle.io_edge.specs.Sink.{Puts};
ghost use Rattle.io_edge.specs.Source.{Fills};

use crate::counter::fail;
use crate::{Failed, Sink, Source};
use std::io::{Read, Write};
use std::marker::Model;

/// A reader of std as a source. What is left is told only of the reader itself: a failed read took nothing of it and is not
/// its end. Each error of the reader, an interrupted read too, is a fault.
#[derive(Drop)]
pub struct StdSource<R> {
    reader: R,
    faults: u64,
}

impl<R> Model for StdSource<R> {
    ghost use Rattle.io_edge.specs.StdEdge.{Reads};

    ghost Value = { Reads R };

    ghost view = { λ source. record { reader = source.reader; faults = source.faults } };
}

impl<R> StdSource<R> {
    /// The source of what the reader gives. It has not failed yet.
    pub fn over(reader: R) -> Self
        ensures { result ≡ record { reader = reader; faults = 0 } }
    {
        StdSource { reader, faults: 0 }
    }
}

impl<R: Read> Source for StdSource<R> {
    ghost left = { λ _. None };

    ghost faults = { λ source. counted source.faults };

    fn fill(&mut self, buf: &mut [u8]) -> Result<usize, Failed>
        ensures within { IfOk result (λ n. n ≤ length buf.old) }
        ensures faults { Later (counted self.old.faults) (counted self.new.faults) }
        ensures calm { OnOk result (counted self.new.faults ≡ counted self.old.faults) }
        ensures failed { OnErr result (Rose (counted self.old.faults) (counted self.new.faults)) }
        ensures raised { MatchResult result (λ _. self.new.faults ≡ self.old.faults) (λ _. RaisedByOne (counted self.old.faults) (counted self.new.faults)) }
        ensures read { ReadConsumes (R.remaining self.old.reader) (R.remaining self.new.reader) result buf.new }
    {
        match self.reader.read(buf) {
            Ok(count) => Ok(count),
            Err(_) => Err(fail(&mut self.faults)),
        }
    }
}

/// A writer of std as a sink. What was taken is told only of the writer itself: it holds just what was taken. Only `finish`
/// flushes the writer. Each error of the writer, an interrupted write too, is a fault, and so is a write that takes nothing
/// of a piece that isn't empty.
#[derive(Drop)]
pub struct StdSink<W> {
    writer: W,
    faults: u64,
}

impl<W> Model for StdSink<W> {
    ghost use Rattle.io_edge.specs.StdEdge.{Writes};

    ghost Value = { Writes W };

    ghost view = { λ sink. record { writer = sink.writer; faults = sink.faults } };
}

impl<W> StdSink<W> {
    /// The sink that hands each piece to the writer. It has not failed yet.
    pub fn over(writer: W) -> Self
        ensures { result ≡ record { writer = writer; faults = 0 } }
    {
        StdSink { writer, faults: 0 }
    }
}

impl<W: Write> StdSink<W> {
    /// Hands on what the writer still holds, as a buffered one does. What can't be written is a fault.
    pub fn finish(&mut self) -> Result<(), Failed>
        ensures kept { Keeps (W.contents self.old.writer) (W.contents self.new.writer) }
        ensures calm { OnOk result (self.new.faults ≡ self.old.faults) }
        ensures raised { OnErr result (RaisedByOne (counted self.old.faults) (counted self.new.faults)) }
    {
        match self.writer.flush() {
            Ok(()) => Ok(()),
            Err(_) => Err(fail(&mut self.faults)),
        }
    }
}

impl<W: Write> Sink for StdSink<W> {
    ghost took = { λ _ _ _. Unit {0} };

    ghost faults = { λ sink. counted sink.faults };

    fn put(&mut self, piece: &[u8]) -> Result<usize, Failed>
        ensures within { IfOk result (λ n. n ≤ length piece.now) }
        ensures progress { IfOk result (λ n. 0 < length piece.now → 0 < n) }
        ensures faults { Later (counted self.old.faults) (counted self.new.faults) }
        ensures calm { OnOk result (counted self.new.faults ≡ counted self.old.faults) }
        ensures failed { OnErr result (Rose (counted self.old.faults) (counted self.new.faults)) }
        ensures raised { MatchResult result (λ _. self.new.faults ≡ self.old.faults) (λ _. RaisedByOne (counted self.old.faults) (counted self.new.faults)) }
        ensures written { WriteAppends (W.contents self.old.writer) (W.contents self.new.writer) result piece.now }
    {
        match self.writer.write(piece) {
            Ok(0) if !piece.is_empty() => Err(fail(&mut self.faults)),
            Ok(count) => Ok(count),
            Err(_) => Err(fail(&mut self.faults)),
        }
    }

    ghost took_nothing = { λ _. tt };

    ghost took_both = { λ _ _ _ _ _ _ _. tt };
}
