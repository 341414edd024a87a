// Accesses of the host's memory and of the registers.
ghost use Rattle.std.specs.Prelude.{◌≡◌, ◌⊎◌, ◌≤◌, ◌<◌, ◌+◌, ◌^◌, length, replicate, IfSome, OnOk, OnErr, IsOk, ◌↔◌};
ghost use Rattle.host_mem.specs.Memory.{HasRange, bytes_of, with_bytes};
ghost use Rattle.cq_engine.specs.Holds.{Holds};
ghost use Rattle.cq_engine.specs.Outcome.{Holding};
ghost use Rattle.cq_regs.specs.Effects.{RingsSlots, written};
ghost use Rattle.cq_regs.specs.Table.{row_at};
ghost use Rattle.cq_regs.specs.declared.table.Access.TheVariants.{Acts};
ghost use Rattle.std.specs.Option.{option_map_or};
ghost use Rattle.raw_face.specs.Access.{IsPeekedIn, IsPokedIn, read_output, write_output};
ghost use Rattle.raw_face.specs.Output.{IsQuiet};
ghost use Rattle.raw_face.specs.Reply.{output_of};

use crate::reply::Reply;
use cq_regs::{NoRegister, Regs};
use host_mem::{HostMem, OutOfMemorySpace};
use raw_lines::{Peeked, RawLine};

/// The most bytes that are shown at once.
const MOST_PEEKED: usize = 512;

/// Writes bytes to the memory.
pub fn poke(mem: &mut HostMem, at: u64, bytes: &[u8]) -> Reply
    ensures quiet { IsQuiet (output_of result) }
    ensures poked { IsPokedIn at bytes.now mem.old (output_of result) mem.new }
{
    match mem.copy_in(at, bytes) {
        Ok(()) => Reply::none(),
        Err(OutOfMemorySpace) => Reply::of(RawLine::Outside),
    }
}

/// Writes a byte `len` times to the memory.
pub fn fill(mem: &mut HostMem, at: u64, len: u32, value: u8) -> Reply
    requires { 1 ≤ len }
    ensures quiet { IsQuiet (output_of result) }
    ensures poked { IsPokedIn at (replicate len value) mem.old (output_of result) mem.new }
{
    match fill_range(mem, at, len, value) {
        Ok(()) => Reply::none(),
        Err(OutOfMemorySpace) => Reply::of(RawLine::Outside),
    }
}

// Writes a byte `len` times, where all of the range is in the memory.
fn fill_range(mem: &mut HostMem, at: u64, len: u32, value: u8) -> Result<(), OutOfMemorySpace>
    requires { 1 ≤ len }
    ensures inside { IsOk result ↔ HasRange mem.old at len }
    ensures ok { OnOk result (mem.new ≡ with_bytes mem.old at (replicate len value)) }
    ensures err { OnErr result (mem.new ≡ mem.old) }
{
    check_range(mem, at, len)?;
    for k in 0..len {
        mem.set(at + u64::from(k), value).unwrap();
    }
    Ok(())
}

// Whether all of a range is in the memory: its first byte is, and its last.
fn check_range(mem: &HostMem, at: u64, len: u32) -> Result<(), OutOfMemorySpace>
    requires { 1 ≤ len }
    ensures inside { IsOk result ↔ HasRange mem.now at len }
    ensures below { OnOk result (at + len < 2 ^ 64) }
{
    let last = at.saturating_add(u64::from(len) - 1);
    mem.get(at)?;
    mem.get(last)?;
    Ok(())
}

/// Shows bytes of the memory.
pub fn peek(mem: &HostMem, at: u64, len: u32) -> Reply
    requires { len ≤ 512 }
    ensures quiet { IsQuiet (output_of result) }
    ensures peeked { IsPeekedIn at len mem.now (output_of result) }
{
    let mut room = [0; MOST_PEEKED];
    peek_into(mem, at, &mut room[..len as usize])
}

// Shows as many bytes as there is room for.
fn peek_into(mem: &HostMem, at: u64, room: &mut [u8]) -> Reply
    requires { length room.old ≤ 512 }
    ensures quiet { IsQuiet (output_of result) }
    ensures peeked { IsPeekedIn at (length room.old) mem.now (output_of result) }
{
    match mem.copy_out(at, room) {
        Ok(()) => Reply::of(RawLine::Memory {
            bytes: Peeked::of(room),
        }),
        Err(OutOfMemorySpace) => Reply::of(RawLine::Outside),
    }
}

/// Writes a register.
pub fn write(regs: &mut Regs, reg: u8, value: u32) -> Reply
    ensures holds { (engine : Holding) → Holds engine regs.old → Holds engine regs.new }
    ensures after { regs.new ≡ option_map_or (λ row. written regs.old row value) (row_at reg) regs.old }
    ensures rings { IfSome (row_at reg) (λ row. row.access ≡ Acts → RingsSlots regs.old row.register value regs.new) }
    ensures quiet { IsQuiet (output_of result) }
    ensures shown { output_of result ≡ write_output reg }
{
    match regs.write(reg, value) {
        Ok(()) => Reply::none(),
        Err(NoRegister) => Reply::of(RawLine::NoRegister { reg }),
    }
}

/// Shows a register.
pub fn read(regs: &Regs, reg: u8) -> Reply
    ensures quiet { IsQuiet (output_of result) }
    ensures shown { output_of result ≡ read_output regs.now reg }
{
    match regs.read(reg) {
        Ok(value) => Reply::of(RawLine::Register { reg, value }),
        Err(NoRegister) => Reply::of(RawLine::NoRegister { reg }),
    }
}
