use storage_model::{Bytes, Sequence};

/// One operation on the host's memory, on the engine's registers or on the card.
#[derive(Debug, Drop)]
pub enum RawOp {
    /// Writes these bytes, 1 to 512 of them, to the memory from an address on.
    Poke { at: u64, bytes: Bytes },
    /// Writes a byte `len` times, 1 to 1,048,576 times, to the memory from an address on.
    Fill { at: u64, len: u32, value: u8 },
    /// Shows `len` bytes of the memory, 1 to 512 of them, from an address on.
    Peek { at: u64, len: u32 },
    /// Writes the register at an offset (JESD84-B51, annex B; cqhci.h).
    Write { reg: u8, value: u32 },
    /// Shows the register at an offset (JESD84-B51, annex B; cqhci.h).
    Read { reg: u8 },
    /// Lets the engine work until it has nothing to do, a poll names no task that was sent, or it stops.
    Go,
    /// Shows a sector as a read would see it.
    Show { sector: u32 },
    /// Discards the card's whole queue by CMD48 (JESD84-B51, section 6.6.39).
    Discard,
}

pub type RawList = Sequence<RawOp>;
