// The chain of a tag: its table of transfer descriptors.
ghost use Rattle.std.specs.Prelude.{◌≡◌, ◌+◌, ◌*◌, ◌<◌, ◌≤◌, ◌^◌, ℕ, Ok};
ghost use Rattle.cq_desc.specs.declared.xfer.Xfer.TheVariants.{Link};
ghost use Rattle.cq_chain.specs.Descriptors.{Reads};
ghost use Rattle.drv_ring.specs.Layout.{HasAddresses, HasLayout, chunk_at, link_at, row_at};
ghost use Rattle.drv_ring.specs.Pieces.{piece_at, piece_count};
ghost use Rattle.drv_ring.specs.Asks.{transfer_at};
ghost use Rattle.drv_ring.specs.Changes.{ChangesWithin, gap_area, table_area};

use crate::Layout;
use crate::places::{CHUNK_ROWS, MOST_BLOCKS, PIECE_BYTES};
use crate::words::write_descriptor;
use cq_chain::Piece;
use cq_desc::Xfer;
use cq_task::BLOCK_BYTES;
use host_mem::HostMem;

/// How many pieces so many blocks have.
fn piece_count(blocks: u16) -> u32
    ensures { result ≡ piece_count blocks }
{
    (BLOCK_BYTES * u32::from(blocks)).div_ceil(PIECE_BYTES)
}

impl Layout {
    /// Piece `k` of the data of a tag with so many blocks.
    fn piece_at(&self, tag: u8, blocks: u16, k: u32) -> Piece
        requires room { HasAddresses self.now }
        requires tag { tag < self.now.depth }
        requires blocks { blocks ≤ MOST_BLOCKS }
        requires within { k < piece_count blocks }
        ensures { result ≡ piece_at self.now tag blocks k }
    {
        Piece {
            at: self.piece_place(tag, k as u8),
            len: PIECE_BYTES.min(BLOCK_BYTES * u32::from(blocks) - PIECE_BYTES * k),
        }
    }

    /// The descriptor of piece `k`.
    fn transfer_at(&self, tag: u8, blocks: u16, k: u32) -> Xfer
        requires room { HasAddresses self.now }
        requires tag { tag < self.now.depth }
        requires blocks { blocks ≤ MOST_BLOCKS }
        requires within { k < piece_count blocks }
        ensures { result ≡ transfer_at self.now tag blocks k }
    {
        let piece = self.piece_at(tag, blocks, k);
        Xfer::Piece {
            end: k + 1 == piece_count(blocks),
            int: false,
            len: piece.len,
            at: piece.at,
        }
    }

    /// Writes the table of a tag with so many blocks.
    pub(crate) fn write_table(&self, mem: &mut HostMem, tag: u8, blocks: u16)
        requires layout { HasLayout mem.old self.now }
        requires tag { tag < self.now.depth }
        requires blocks { blocks ≤ MOST_BLOCKS }
        ensures written { (k : ℕ) → k < piece_count blocks → Reads mem.new self.now.wide (row_at self.now tag k) (Ok (transfer_at self.now tag blocks k)) }
        ensures links { (c : ℕ) → 32 * (c + 1) < piece_count blocks → Reads mem.new self.now.wide (link_at self.now tag c) (Ok (Link (chunk_at self.now tag (c + 1)))) }
        ensures within { ChangesWithin (table_area self.now tag) mem.old mem.new }
    {
        for k in 0..piece_count(blocks) {
            self.write_link(mem, tag, k as u8);
            let xfer = self.transfer_at(tag, blocks, k);
            write_descriptor(mem, self.row_at(tag, k as u8), &xfer, self.wide);
        }
    }

    /// Writes the link that stands in front of the descriptor of piece `k`, where a chunk begins with it.
    fn write_link(&self, mem: &mut HostMem, tag: u8, k: u8)
        requires layout { HasLayout mem.old self.now }
        requires tag { tag < self.now.depth }
        requires within { k < 128 }
        ensures links { (c : ℕ) → 32 * (c + 1) ≡ k → Reads mem.new self.now.wide (link_at self.now tag c) (Ok (Link (chunk_at self.now tag (c + 1)))) }
        ensures within { ChangesWithin (gap_area self.now tag k) mem.old mem.new }
    {
        if k == 0 {
            return;
        }
        if k % CHUNK_ROWS != 0 {
            return;
        }
        let link = Xfer::Link {
            at: self.chunk_at(tag, k / CHUNK_ROWS),
        };
        let at = self.row_at(tag, k - 1) + self.descriptor_size();
        write_descriptor(mem, at, &link, self.wide);
    }
}
