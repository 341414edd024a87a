ghost use Rattle.std.specs.Prelude.{◌≡◌, ◌↔◌, ◌+◌, ◌≤◌, Contains, IsErr, Some, length, min, drop, IfOk, MatchResult, OnOk, OnErr};
ghost use Rattle.std.specs.Io.Iter.{u64_saturate};
ghost use Rattle.storage_model.specs.Count.{Later, RaisedByOne, Rose};
ghost use Rattle.io_edge.specs.Counter.{counted};
ghost use Rattle.io_edge.specs.MemSource.{SourceState};
ghost use Rattle.io_edge.specs.Source.{Fills};

use crate::counter::{fail, is_listed};
use crate::{Failed, Source};
use std::marker::Model;
use storage_model::Bytes;

/// A text in memory. The calls whose numbers are listed, counted from 1, fail; with an empty list none does.
#[derive(Debug, Drop)]
pub struct MemSource {
    bytes: Bytes,
    at: usize,
    fails: Vec<u32>,
    calls: u64,
    faults: u64,
}

impl Model for MemSource {
    ghost use Rattle.std.specs.Prelude.{◌≤◌, drop, length};
    ghost use Rattle.io_edge.specs.MemSource.{SourceState};

    ghost Value = { SourceState };

    ghost view = { λ source. record { left = drop source.at source.bytes; fails = source.fails.items; calls = source.calls; faults = source.faults } };

    ghost invariant = { λ source. source.at ≤ length source.bytes };
}

impl MemSource {
    /// The source of these bytes, of which the calls of `fails` fail.
    pub fn over(bytes: Bytes, fails: Vec<u32>) -> Self
        ensures { result ≡ record { left = bytes; fails = fails.items; calls = 0; faults = 0 } }
    {
        MemSource {
            bytes,
            at: 0,
            fails,
            calls: 0,
            faults: 0,
        }
    }
}

impl Source for MemSource {
    ghost left = { λ source. Some source.left };

    ghost faults = { λ source. counted source.faults };

    /// Fails exactly where the call is listed, and else moves as many bytes as there are and have room.
    fn fill(&mut self, buf: &mut [u8]) -> Result<usize, Failed>
        ensures within { IfOk result (λ n. n ≤ length buf.old) }
        ensures moved { Fills (Some self.old.left) buf.new result (Some self.new.left) }
        ensures faults { Later (counted self.old.faults) (counted self.new.faults) }
        ensures calm { OnOk result (counted self.new.faults ≡ counted self.old.faults) }
        ensures failed { OnErr result (Rose (counted self.old.faults) (counted self.new.faults)) }

        ensures listed { IsErr result ↔ Contains self.old.fails (u64_saturate (self.old.calls + 1)) }
        ensures most { IfOk result (λ n. n ≡ min (length buf.old) (length self.old.left)) }
        ensures rest { IfOk result (λ n. drop n buf.new ≡ drop n buf.old) }
        ensures calls { self.new.calls ≡ u64_saturate (self.old.calls + 1) }
        ensures fails { self.new.fails ≡ self.old.fails }
        ensures raised { MatchResult result (λ _. self.new.faults ≡ self.old.faults) (λ _. RaisedByOne (counted self.old.faults) (counted self.new.faults)) }
    {
        self.calls = self.calls.saturating_add(1);
        if is_listed(&self.fails, self.calls) {
            return Err(fail(&mut self.faults));
        }
        let rest = &self.bytes.as_slice()[self.at..];
        let count = rest.len().min(buf.len());
        buf[..count].copy_from_slice(&rest[..count]);
        self.at += count;
        Ok(count)
    }
}
