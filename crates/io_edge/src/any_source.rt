ghost use Rattle.std.specs.Prelude.{◌≡◌, IsErr, List, [], None, Some, length, ◌≤◌, IfOk, OnOk, OnErr};
ghost use Rattle.storage_model.specs.Count.{Later, RaisedByOne, Rose};
ghost use Rattle.io_edge.specs.Counter.{counted};
ghost use Rattle.io_edge.specs.Source.{Fills};
ghost use Rattle.io_edge.specs.AnySource.{any_left, any_faults, IsUnopened};

use crate::counter::fail;
use crate::{Failed, Source, StdSource};
use std::io::Read;
use std::marker::Model;

/// A source that is at its end and never fails.
#[derive(Clone, Copy, Debug, PartialEq, Eq)]
pub struct EmptySource;

impl EmptySource {
    /// There is only one.
    pub fn new() -> Self {
        EmptySource
    }
}

impl Source for EmptySource {
    ghost left = { λ _. Some [] };

    ghost faults = { λ _. counted 0 };

    fn fill(&mut self, buf: &mut [u8]) -> Result<usize, Failed>
        ensures end { result ≡ Ok 0 }
        ensures kept { buf.new ≡ buf.old }
    {
        let _ = buf;
        Ok(0)
    }
}

/// A source whose every call fails, as for a file that can't be opened.
#[derive(Debug, Drop)]
pub struct NoSource {
    faults: u64,
}

impl Model for NoSource {
    ghost use Rattle.std.specs.Prelude.{ℕ};

    ghost Value = { ℕ };

    ghost view = { λ source. source.faults };
}

impl NoSource {
    /// It has not failed yet.
    pub fn new() -> Self
        ensures { result ≡ 0 }
    {
        NoSource { faults: 0 }
    }
}

impl Source for NoSource {
    ghost left = { λ _. None };

    ghost faults = { λ source. counted source };

    fn fill(&mut self, buf: &mut [u8]) -> Result<usize, Failed>
        ensures err { IsErr result }
        ensures kept { buf.new ≡ buf.old }
        ensures faults { Later (counted self.old) (counted self.new) }
        ensures failed { OnErr result (Rose (counted self.old) (counted self.new)) }
        ensures raised { RaisedByOne (counted self.old) (counted self.new) }
    {
        let _ = buf;
        Err(fail(&mut self.faults))
    }
}

/// What a program reads in the place of a text: nothing where no file is named, a failing source where the file can't be
/// opened, and else the file.
#[derive(Drop)]
pub enum AnySource<R> {
    Empty(EmptySource),
    No(NoSource),
    Std(StdSource<R>),
}

impl<R: Read> Source for AnySource<R> {
    ghost left = { any_left };

    ghost faults = { any_faults };

    fn fill(&mut self, buf: &mut [u8]) -> Result<usize, Failed>
        ensures within { IfOk result (λ n. n ≤ length buf.old) }
        ensures moved { Fills (any_left self.old) buf.new result (any_left self.new) }
        ensures faults { Later (any_faults self.old) (any_faults self.new) }
        ensures calm { OnOk result (any_faults self.new ≡ any_faults self.old) }
        ensures failed { OnErr result (Rose (any_faults self.old) (any_faults self.new)) }
        ensures unopened { IsUnopened self.old → IsErr result × IsUnopened self.new }
    {
        match self {
            AnySource::Empty(source) => source.fill(buf),
            AnySource::No(source) => source.fill(buf),
            AnySource::Std(source) => source.fill(buf),
        }
    }
}
