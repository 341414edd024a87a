ghost use Rattle.std.specs.Prelude.{◌≡◌, ◌+◌, ◌≤◌, ◌++◌, length, take, drop};
ghost use Rattle.byteorder.specs.Endian.{little_number, little_bytes};

use byteorder::{ByteOrder, LittleEndian};

/// The word of 4 bytes at `at`, the lowest byte first, as `le32_to_cpu` of the Linux kernel reads it.
pub fn get32(bytes: &[u8], at: usize) -> u32
    requires { at + 4 ≤ length bytes.now }
    ensures { result ≡ little_number 4 (drop at bytes.now) }
{
    LittleEndian::read_u32(&bytes[at..])
}

/// The word of 8 bytes at `at`, the lowest byte first, as `le64_to_cpu` of the Linux kernel reads it.
pub fn get64(bytes: &[u8], at: usize) -> u64
    requires { at + 8 ≤ length bytes.now }
    ensures { result ≡ little_number 8 (drop at bytes.now) }
{
    LittleEndian::read_u64(&bytes[at..])
}

/// Writes a word of 4 bytes at `at`, the lowest byte first. The other bytes stay.
pub fn put32(bytes: &mut [u8], at: usize, value: u32)
    requires { at + 4 ≤ length bytes.old }
    ensures { bytes.new ≡ take at bytes.old ++ (little_bytes 4 value ++ drop (at + 4) bytes.old) }
{
    LittleEndian::write_u32(&mut bytes[at..], value);
}

/// Writes a word of 8 bytes at `at`, the lowest byte first. The other bytes stay.
pub fn put64(bytes: &mut [u8], at: usize, value: u64)
    requires { at + 8 ≤ length bytes.old }
    ensures { bytes.new ≡ take at bytes.old ++ (little_bytes 8 value ++ drop (at + 8) bytes.old) }
{
    LittleEndian::write_u64(&mut bytes[at..], value);
}
