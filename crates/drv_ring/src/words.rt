// Bytes, words and descriptors in memory that is there.
ghost use Rattle.std.specs.Prelude.{◌≡◌, ◌+◌, ◌<◌, ◌≤◌, ◌^◌, length, replicate, true, Ok};
ghost use Rattle.host_mem.specs.Memory.{HasRange, bytes_of};
ghost use Rattle.cq_desc.specs.Transfer.{IsXferInRange};
ghost use Rattle.cq_chain.specs.Descriptors.{Reads, size_of, word_at};
ghost use Rattle.drv_ring.specs.Changes.{ChangesWithin, area};

use cq_desc::{Xfer, write_xfer};
use cq_words::put64;
use host_mem::HostMem;

/// Copies bytes to an address.
pub(crate) fn write_bytes(mem: &mut HostMem, at: u64, bytes: &[u8])
    requires { HasRange mem.old at (length bytes.now) }
    ensures written { bytes_of mem.new at (length bytes.now) ≡ bytes.now }
    ensures within { ChangesWithin (area at (length bytes.now)) mem.old mem.new }
{
    match mem.copy_in(at, bytes) {
        Ok(()) => {}
        Err(_) => unreachable!(),
    }
}

/// Writes a word of 8 bytes at an address, the lowest byte first, as `cpu_to_le64` of the Linux kernel has it.
pub(crate) fn write_word(mem: &mut HostMem, at: u64, word: u64)
    requires { HasRange mem.old at 8 }
    ensures written { word_at mem.new at ≡ word }
    ensures within { ChangesWithin (area at 8) mem.old mem.new }
{
    let mut bytes = [0; 8];
    put64(&mut bytes, 0, word);
    write_bytes(mem, at, &bytes);
}

/// Writes bytes of 0 in the place of a descriptor.
pub(crate) fn write_nothing(mem: &mut HostMem, at: u64, wide: bool)
    requires { HasRange mem.old at (size_of wide) }
    ensures written { bytes_of mem.new at (size_of wide) ≡ replicate (size_of wide) 0 }
    ensures within { ChangesWithin (area at (size_of wide)) mem.old mem.new }
{
    if wide {
        write_bytes(mem, at, &[0; 16]);
    } else {
        write_bytes(mem, at, &[0; 8]);
    }
}

/// Writes the words of a descriptor at an address: the low word alone, or both where it is `wide`.
pub(crate) fn write_words(mem: &mut HostMem, at: u64, low: u64, high: u64, wide: bool)
    requires inside { HasRange mem.old at (size_of wide) }
    requires below { at + 8 < 2 ^ 64 }
    ensures low { word_at mem.new at ≡ low }
    ensures high { wide ≡ true → word_at mem.new (at + 8) ≡ high }
    ensures within { ChangesWithin (area at (size_of wide)) mem.old mem.new }
{
    write_word(mem, at, low);
    if wide {
        write_word(mem, at + 8, high);
    }
}

/// Writes a transfer descriptor at an address.
pub(crate) fn write_descriptor(mem: &mut HostMem, at: u64, xfer: &Xfer, wide: bool)
    requires inside { HasRange mem.old at (size_of wide) }
    requires below { at + 8 < 2 ^ 64 }
    requires fits { IsXferInRange wide xfer.now }
    ensures written { Reads mem.new wide at (Ok xfer.now) }
    ensures within { ChangesWithin (area at (size_of wide)) mem.old mem.new }
{
    let (low, high) = write_xfer(xfer, wide);
    write_words(mem, at, low, high, wide);
}
