ghost use Rattle.std.specs.Prelude.{◌≡◌, ◌↔◌, ◌⊎◌, ◌+◌, ◌-◌, ◌^◌, ◌<◌, ◌≤◌, [], Contains, IsErr, length, min, IfOk, MatchResult, OnOk, OnErr};
ghost use Rattle.std.specs.Io.Iter.{u64_saturate};
ghost use Rattle.storage_model.specs.Count.{Later, RaisedByOne, Rose};
ghost use Rattle.io_edge.specs.Counter.{counted};
ghost use Rattle.io_edge.specs.MemSink.{SinkState, Grew};
ghost use Rattle.io_edge.specs.Sink.{Puts};
ghost use Rattle.std.proofs.Common.{rules};
ghost use Rattle.std.proofs.lemmas.Grind.{common_steps};

use crate::counter::{fail, is_listed};
use crate::{Failed, Sink};
use std::alloc::Global;
use std::marker::Model;
use storage_model::NoMemory;

/// A text that grows in memory taken beforehand. The calls whose numbers are listed, counted from 1, fail, and so does
/// one that finds no room; with an empty list and enough room none does.
#[derive(Debug, Drop)]
pub struct MemSink {
    bytes: Vec<u8>,
    room: u32,
    step: u32,
    fails: Vec<u32>,
    calls: u64,
    faults: u64,
}

impl Model for MemSink {
    ghost use Rattle.std.specs.Prelude.{◌≤◌, ◌<◌, vec_len, vec_capacity};
    ghost use Rattle.io_edge.specs.MemSink.{SinkState};

    ghost Value = { SinkState };

    ghost view = { λ sink. record { bytes = sink.bytes.items; room = sink.room; step = sink.step; fails = sink.fails.items; calls = sink.calls; faults = sink.faults } };

    ghost invariant = { λ sink. (vec_len sink.bytes ≤ sink.room) × (sink.room ≤ vec_capacity sink.bytes) × (0 < sink.step) };
}

impl MemSink {
    /// A sink that holds at most `room` bytes, and each call of `fails` fails. A call takes all that there is room for.
    pub fn with_room(alloc: Global, room: u32, fails: Vec<u32>) -> Result<Self, NoMemory>
        ensures { IfOk result (λ sink. sink ≡ record { bytes = []; room = room; step = 2 ^ 32 - 1; fails = fails.items; calls = 0; faults = 0 }) }
    {
        MemSink::by_steps(alloc, room, u32::MAX, fails)
    }

    /// The same, and a call takes at most `step` bytes.
    pub fn by_steps(alloc: Global, room: u32, step: u32, fails: Vec<u32>) -> Result<Self, NoMemory>
        requires { 0 < step }
        ensures { IfOk result (λ sink. sink ≡ record { bytes = []; room = room; step = step; fails = fails.items; calls = 0; faults = 0 }) }
    {
        Ok(MemSink {
            bytes: Vec::with_capacity(alloc, room as usize)?,
            room,
            step,
            fails,
            calls: 0,
            faults: 0,
        })
    }

    /// The bytes that were taken.
    pub fn bytes(&self) -> &[u8]
        ensures { result.now ≡ self.now.bytes }
    {
        self.bytes.as_slice()
    }
}

impl Sink for MemSink {
    ghost took = { Grew };

    ghost faults = { λ sink. counted sink.faults };

    /// Fails exactly where the call is listed, or the piece isn't empty and there is no room.
    fn put(&mut self, piece: &[u8]) -> Result<usize, Failed>
        ensures within { IfOk result (λ n. n ≤ length piece.now) }
        ensures progress { IfOk result (λ n. 0 < length piece.now → 0 < n) }
        ensures taken { Puts Grew self.old piece.now result self.new }
        ensures faults { Later (counted self.old.faults) (counted self.new.faults) }
        ensures calm { OnOk result (counted self.new.faults ≡ counted self.old.faults) }
        ensures failed { OnErr result (Rose (counted self.old.faults) (counted self.new.faults)) }

        ensures listed { IsErr result ↔ (Contains self.old.fails (u64_saturate (self.old.calls + 1)) ⊎ ((0 < length piece.now) × (self.old.room ≤ length self.old.bytes))) }
        ensures most { IfOk result (λ n. n ≡ min (length piece.now) (min self.old.step (self.old.room - length self.old.bytes))) }
        ensures calls { self.new.calls ≡ u64_saturate (self.old.calls + 1) }
        ensures raised { MatchResult result (λ _. self.new.faults ≡ self.old.faults) (λ _. RaisedByOne (counted self.old.faults) (counted self.new.faults)) }
    {
        self.calls = self.calls.saturating_add(1);
        if is_listed(&self.fails, self.calls) {
            return Err(fail(&mut self.faults));
        }
        let room = (self.room as usize - self.bytes.len()).min(self.step as usize);
        let count = piece.len().min(room);
        if count == 0 && !piece.is_empty() {
            return Err(fail(&mut self.faults));
        }
        self.bytes.extend_from_slice(&piece[..count]).unwrap();
        Ok(count)
    }

    ghost took_nothing = { Prim.search (rules, common_steps) };

    ghost took_both = { Prim.search (rules, common_steps) };
}
