ghost use Rattle.std.specs.Prelude.{◌≡◌, ◌+◌, ◌*◌, ◌<◌, ◌≤◌, ◌^◌};
ghost use Rattle.cq_chain.specs.Descriptors.{size_of as descriptor_size};
ghost use Rattle.cq_task.specs.Place.{place_of};
ghost use Rattle.drv_ring.specs.Layout.{HasAddresses, chunk_at, list_of, piece_place, row_at, size_of, table_at};

use cq_task::{SLOTS, TaskList};

/// The most tags: slot 31 holds direct commands.
pub const MOST_DEPTH: u8 = 31;

/// The most blocks of a read or write.
pub const MOST_BLOCKS: u16 = 1024;

/// How far the first table of transfer descriptors is from the base.
pub const FIRST_TABLE: u64 = 1024;

/// The bytes between the starts of two chunks of a table.
pub const CHUNK_BYTES: u64 = 1024;

/// The transfer descriptors of a chunk.
pub const CHUNK_ROWS: u8 = 32;

/// The bytes of a table.
pub const TABLE_BYTES: u64 = 4096;

/// How far the first piece of data is from the base.
pub const FIRST_PIECE: u64 = 131_072;

/// The bytes of a piece: 8 blocks.
pub const PIECE_BYTES: u32 = 4096;

/// The bytes of all pieces of a tag: the most blocks of a read or write.
pub const TAG_BYTES: u64 = 524_288;

/// Where the driver's task descriptor list, tables and pieces of data stand in host memory, for so many tags.
#[derive(Clone, Copy, Debug, PartialEq, Eq)]
pub struct Layout {
    /// The address of slot 0.
    pub base: u64,
    /// How many tags there are for reads and writes.
    pub depth: u8,
    /// Descriptors are of 16 bytes; else of 8.
    pub wide: bool,
}

impl Layout {
    /// The layout of a base and a depth, with descriptors of 128 bits where it is `wide`, else of 64.
    pub fn new(base: u64, depth: u8, wide: bool) -> Layout
        ensures { result ≡ record { base = base; depth = depth; wide = wide } }
    {
        Layout { base, depth, wide }
    }

    /// How many bytes the layout has from its base on.
    pub fn size(&self) -> u32
        requires { self.now.depth ≤ MOST_DEPTH }
        ensures { result ≡ size_of self.now }
    {
        FIRST_PIECE as u32 + TAG_BYTES as u32 * u32::from(self.depth)
    }

    /// The task descriptor list, with direct commands in slot 31.
    pub fn list(&self) -> TaskList
        ensures { result ≡ list_of self.now }
    {
        TaskList {
            base: self.base,
            wide: self.wide,
            direct: true,
        }
    }

    /// The bytes of a descriptor.
    pub(crate) fn descriptor_size(&self) -> u64
        ensures { result ≡ descriptor_size self.now.wide }
    {
        if self.wide { 16 } else { 8 }
    }

    /// The address of a slot.
    pub(crate) fn slot_at(&self, tag: u8) -> u64
        requires room { HasAddresses self.now }
        requires tag { tag < SLOTS }
        ensures { result ≡ place_of (list_of self.now) tag }
    {
        let slot_bytes = if self.wide { 32 } else { 16 };
        self.base + u64::from(tag) * slot_bytes
    }

    /// The address of a tag's table.
    pub(crate) fn table_at(&self, tag: u8) -> u64
        requires room { HasAddresses self.now }
        requires tag { tag < self.now.depth }
        ensures { result ≡ table_at self.now tag }
    {
        self.base + FIRST_TABLE + TABLE_BYTES * u64::from(tag)
    }

    /// The address of a chunk of a tag's table.
    pub(crate) fn chunk_at(&self, tag: u8, chunk: u8) -> u64
        requires room { HasAddresses self.now }
        requires tag { tag < self.now.depth }
        requires within { chunk < 4 }
        ensures { result ≡ chunk_at self.now tag chunk }
    {
        self.table_at(tag) + CHUNK_BYTES * u64::from(chunk)
    }

    /// The address of the descriptor of piece `k`.
    pub(crate) fn row_at(&self, tag: u8, k: u8) -> u64
        requires room { HasAddresses self.now }
        requires tag { tag < self.now.depth }
        requires within { k < 128 }
        ensures { result ≡ row_at self.now tag k }
    {
        self.chunk_at(tag, k / CHUNK_ROWS) + self.descriptor_size() * u64::from(k % CHUNK_ROWS)
    }

    /// The address of piece `k` of a tag's data: first come the pieces 0 of all tags, then the pieces 1, and so on.
    pub(crate) fn piece_place(&self, tag: u8, k: u8) -> u64
        requires room { HasAddresses self.now }
        requires tag { tag < self.now.depth }
        requires within { k < 128 }
        ensures { result ≡ piece_place self.now tag k }
    {
        let turn = u64::from(self.depth) * u64::from(k) + u64::from(tag);
        self.base + FIRST_PIECE + u64::from(PIECE_BYTES) * turn
    }
}
