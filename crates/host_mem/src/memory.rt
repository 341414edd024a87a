ghost use Rattle.std.specs.Prelude.{◌≡◌, ◌↔◌, ◌+◌, ◌-◌, ◌<◌, ◌≤◌, ◌^◌, ℕ, IfOk, IsOk, IsTrue, OnErr, OnOk, length, replicate};

use crate::pages::{PAGE_BYTES, Pages};
use std::alloc::Global;
use std::marker::Model;
use storage_model::NoMemory;

/// A byte of the range isn't in the memory.
#[derive(Clone, Copy, Debug, PartialEq, Eq)]
pub struct OutOfMemorySpace;

/// The bytes at the addresses from a base on.
#[derive(Debug, Drop)]
pub struct HostMem {
    base: u64,
    len: usize,
    // The last page has bytes that aren't in the range, where the length isn't that of whole pages.
    pages: Pages,
}

impl Model for HostMem {
    ghost use Rattle.std.specs.Prelude.{◌+◌, ◌<◌, ◌≤◌, ◌^◌, length, take};
    ghost use Rattle.host_mem.specs.Memory.{Memory};

    ghost Value = { Memory };

    ghost view = { λ it. record { base = it.base; bytes = take it.len it.pages } };

    ghost invariant = { λ it. (it.base + it.len < 2 ^ 64) × (it.len ≤ length it.pages) };
}

impl HostMem {
    ghost use Rattle.host_mem.specs.Memory.{HasByte, HasRange, byte_of, bytes_of, with_byte, with_bytes};

    /// `len` bytes of 0 from `base` on.
    pub fn start(alloc: Global, base: u64, len: u32) -> Result<HostMem, NoMemory>
        requires { base + len ≤ 2 ^ 64 - 1 }
        ensures { IfOk result (λ memory. memory ≡ record { base = base; bytes = replicate len 0 }) }
    {
        let len = len as usize;
        let pages = Pages::start(alloc, len.div_ceil(PAGE_BYTES))?;
        Ok(HostMem { base, len, pages })
    }

    /// Whether there is a byte at each of the `len` addresses from `at` on.
    pub fn has(&self, at: u64, len: usize) -> bool
        ensures inside { IsTrue result ↔ HasRange self.now at len }
        ensures below { IsTrue result → at + len < 2 ^ 64 }
    {
        self.place_of(at, len).is_ok()
    }

    /// The byte at the address.
    pub fn get(&self, at: u64) -> Result<u8, OutOfMemorySpace>
        ensures inside { IsOk result ↔ HasByte self.now at }
        ensures value { IfOk result (λ byte. byte ≡ byte_of self.now at) }
        ensures below { OnOk result (at + 1 < 2 ^ 64) }
    {
        let place = self.place_of(at, 1)?;
        Ok(self.pages.get(place))
    }

    /// Puts a byte at the address. After an error the memory is as it was.
    pub fn set(&mut self, at: u64, value: u8) -> Result<(), OutOfMemorySpace>
        ensures inside { IsOk result ↔ HasByte self.old at }
        ensures ok { OnOk result (self.new ≡ with_byte self.old at value) }
        ensures err { OnErr result (self.new ≡ self.old) }
    {
        let place = self.place_of(at, 1)?;
        self.pages.set(place, value);
        Ok(())
    }

    /// Copies the bytes from the address on, as many as `to` has. No byte of an empty range is outside, so that is
    /// never refused. After an error `to` is as it was.
    pub fn copy_out(&self, at: u64, to: &mut [u8]) -> Result<(), OutOfMemorySpace>
        ensures inside { IsOk result ↔ HasRange self.now at (length to.old) }
        ensures ok { OnOk result (to.new ≡ bytes_of self.now at (length to.old)) }
        ensures err { OnErr result (to.new ≡ to.old) }
        ensures below { OnOk result (at + length to.old < 2 ^ 64) }
    {
        let place = self.place_of(at, to.len())?;
        self.pages.copy_out(place, to);
        Ok(())
    }

    /// Copies `from` to the address and those that follow. No byte of an empty range is outside, so that is never
    /// refused. After an error the memory is as it was.
    pub fn copy_in(&mut self, at: u64, from: &[u8]) -> Result<(), OutOfMemorySpace>
        ensures inside { IsOk result ↔ HasRange self.old at (length from.now) }
        ensures ok { OnOk result (self.new ≡ with_bytes self.old at from.now) }
        ensures err { OnErr result (self.new ≡ self.old) }
        ensures below { OnOk result (at + length from.now < 2 ^ 64) }
    {
        let place = self.place_of(at, from.len())?;
        self.pages.copy_in(place, from);
        Ok(())
    }

    /// Where in the block the range begins, if all of it is there.
    fn place_of(&self, at: u64, len: usize) -> Result<usize, OutOfMemorySpace>
        ensures inside { IsOk result ↔ HasRange self.now at len }
        ensures within { IfOk result (λ place. place + len ≤ length self.now.bytes) }
        ensures place { IfOk result (λ place. 0 < len → place ≡ at - self.now.base) }
        ensures below { OnOk result (at + len < 2 ^ 64) }
    {
        if len == 0 {
            return Ok(0);
        }
        if at < self.base {
            return Err(OutOfMemorySpace);
        }
        let place = (at - self.base) as usize;
        if place >= self.len {
            return Err(OutOfMemorySpace);
        }
        if self.len - place < len {
            return Err(OutOfMemorySpace);
        }
        Ok(place)
    }
}
