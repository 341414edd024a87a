// The data of a tag: the blocks of its pieces.
ghost use Rattle.std.specs.Prelude.{◌≡◌, ◌+◌, ◌*◌, ◌<◌, ◌≤◌, ◌^◌, ℕ};
ghost use Rattle.storage_model.specs.Plan.{IsFillListed, block_at};
ghost use Rattle.host_mem.specs.Memory.{bytes_of};
ghost use Rattle.piece_data.specs.Data.{block_of};
ghost use Rattle.drv_ring.specs.Layout.{HasAddresses, HasLayout, block_place};
ghost use Rattle.drv_ring.specs.Pieces.{tag_pieces};
ghost use Rattle.drv_ring.specs.Changes.{ChangesAmong};

use crate::Layout;
use crate::places::MOST_BLOCKS;
use crate::words::write_bytes;
use cq_task::BLOCK_BYTES;
use host_mem::HostMem;
use storage_model::{Block, Fill, Plan, block_of};

impl Layout {
    /// Where block `k` of the data of a tag stands.
    fn block_at(&self, tag: u8, k: u16) -> u64
        requires room { HasAddresses self.now }
        requires tag { tag < self.now.depth }
        requires within { k < MOST_BLOCKS }
        ensures { result ≡ block_place self.now tag k }
    {
        self.piece_place(tag, (k / 8) as u8) + u64::from(BLOCK_BYTES * u32::from(k % 8))
    }

    /// Writes the blocks of a fill to the pieces of a tag, in order.
    pub(crate) fn write_blocks(
        &self,
        mem: &mut HostMem,
        tag: u8,
        plan: &Plan,
        fill: Fill,
        count: u16,
    )
        requires layout { HasLayout mem.old self.now }
        requires tag { tag < self.now.depth }
        requires few { count ≤ MOST_BLOCKS }
        requires listed { IsFillListed plan.now.blocks fill count }
        ensures written { (k : ℕ) → k < count → bytes_of mem.new (block_place self.now tag k) 512 ≡ (block_at plan.now.blocks fill k).0 }
        ensures within { ChangesAmong (tag_pieces self.now tag count) mem.old mem.new }
    {
        for k in 0..count {
            let block = block_of(plan, fill, k);
            write_bytes(mem, self.block_at(tag, k), &block.0);
        }
    }

    /// Reads block `k` of the data of a tag: the same block whatever the number of its blocks is. It takes no memory.
    pub fn read_block(&self, mem: &HostMem, tag: u8, k: u16, block: &mut Block)
        requires layout { HasLayout mem.now self.now }
        requires tag { tag < self.now.depth }
        requires within { k < MOST_BLOCKS }
        ensures { (blocks : ℕ) → k < blocks → blocks ≤ MOST_BLOCKS → block.new ≡ block_of mem.now (tag_pieces self.now tag blocks) k }
    {
        match mem.copy_out(self.block_at(tag, k), &mut block.0) {
            Ok(()) => {}
            Err(_) => unreachable!(),
        }
    }
}
