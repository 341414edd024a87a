// A job at the places of its tag.
ghost use Rattle.std.specs.Prelude.{◌≡◌, ◌≢◌, ◌<◌, ◌≤◌, ℕ, [], ◌∷◌, Ok};
ghost use Rattle.storage_model.specs.Plan.{IsFillListed, IsValidJob, block_at};
ghost use Rattle.cq_desc.specs.Direct.{IsDirectInRange, direct_read};
ghost use Rattle.cq_desc.specs.Task.{task_read};
ghost use Rattle.cq_desc.specs.declared.xfer.Xfer.TheVariants.{Link};
ghost use Rattle.cq_chain.specs.Descriptors.{Reads};
ghost use Rattle.cq_task.specs.Place.{chain_of, first_word};
ghost use Rattle.piece_data.specs.Data.{block_of};
ghost use Rattle.piece_data.specs.Laws.{HasSameSpace, KeepsOthers};
ghost use Rattle.drv_ring.specs.Layout.{HasLayout, IsTagOf, list_of, table_at};
ghost use Rattle.drv_ring.specs.Pieces.{tag_pieces};
ghost use Rattle.drv_ring.specs.Asks.{Asks, HasChain, HasNothing, HoldsData};
ghost use Rattle.drv_ring.specs.Changes.{ChangesWithin, KeepsTag, areas_of, slot_area, table_area};

use crate::Layout;
use crate::places::MOST_BLOCKS;
use crate::task::{FLUSH_CACHE, SET_BARRIER, read_desc, status_desc, switch_desc, write_desc};
use crate::words::{write_descriptor, write_nothing, write_words};
use cq_desc::{DirectDesc, TaskDesc, Xfer, write_direct, write_task};
use cq_task::SLOTS;
use host_mem::HostMem;
use storage_model::{Fill, Job, Plan};

impl Layout {
    /// Writes a job to the places of its tag: the slot, the table where it moves data, and the pieces of its data where it is a write
    /// (`cqhci_request` of the Linux driver, up to the doorbell; JESD84-B51, annex B). The slot asks for the job then, and
    /// every other tag has what it had. `int` says whether its completion interrupts at once. It takes no memory.
    pub fn write_job(&self, mem: &mut HostMem, tag: u8, job: &Job, plan: &Plan, int: bool)
        requires layout { HasLayout mem.old self.now }
        requires tag { IsTagOf self.now tag job.now }
        requires valid { IsValidJob plan.now.blocks job.now }
        ensures layout { HasLayout mem.new self.now }
        ensures asks { Asks mem.new self.now tag job.now int }
        ensures data { HoldsData mem.new self.now tag job.now plan.now.blocks }
        ensures others { (other : ℕ) → other < SLOTS → other ≢ tag → KeepsTag self.now other mem.old mem.new }
        ensures space { HasSameSpace mem.old mem.new }
        ensures outside { KeepsOthers (areas_of self.now tag job.now) mem.old mem.new }
    {
        match *job {
            Job::Read {
                sector,
                blocks,
                high,
            } => self.write_data_task(mem, tag, &read_desc(sector, blocks, high, int)),
            Job::Write {
                sector,
                blocks,
                fill,
                forced,
                reliable,
                high,
            } => {
                let desc = write_desc(sector, blocks, forced, reliable, high, int);
                self.write_fill_task(mem, tag, &desc, plan, fill);
            }
            Job::Flush => self.write_direct_task(mem, tag, &switch_desc(FLUSH_CACHE, int)),
            Job::Barrier => self.write_direct_task(mem, tag, &switch_desc(SET_BARRIER, int)),
            Job::Status => self.write_direct_task(mem, tag, &status_desc(int)),
        }
    }

    /// Writes a task that writes the blocks of a fill: first the blocks, then the descriptors.
    fn write_fill_task(&self, mem: &mut HostMem, tag: u8, desc: &TaskDesc, plan: &Plan, fill: Fill)
        requires layout { HasLayout mem.old self.now }
        requires tag { tag < self.now.depth }
        requires blocks { desc.now.blocks ≤ MOST_BLOCKS }
        requires context { desc.now.context < 16 }
        requires listed { IsFillListed plan.now.blocks fill desc.now.blocks }
        ensures word { task_read (first_word mem.new (list_of self.now) tag) ≡ Ok desc.now }
        ensures chain { HasChain mem.new self.now tag desc.now.blocks }
        ensures data { (k : ℕ) → k < desc.now.blocks → block_of mem.new (tag_pieces self.now tag desc.now.blocks) k ≡ block_at plan.now.blocks fill k }
        ensures space { HasSameSpace mem.old mem.new }
        ensures outside { KeepsOthers (slot_area self.now tag ∷ table_area self.now tag ∷ tag_pieces self.now tag desc.now.blocks) mem.old mem.new }
    {
        self.write_blocks(mem, tag, plan, fill, desc.blocks);
        self.write_data_task(mem, tag, desc);
    }

    /// Writes the descriptors of a data task (`cqhci_prep_task_desc`, `cqhci_prep_tran_desc`).
    fn write_data_task(&self, mem: &mut HostMem, tag: u8, desc: &TaskDesc)
        requires layout { HasLayout mem.old self.now }
        requires tag { tag < self.now.depth }
        requires blocks { desc.now.blocks ≤ MOST_BLOCKS }
        requires context { desc.now.context < 16 }
        ensures word { task_read (first_word mem.new (list_of self.now) tag) ≡ Ok desc.now }
        ensures chain { HasChain mem.new self.now tag desc.now.blocks }
        ensures space { HasSameSpace mem.old mem.new }
        ensures outside { KeepsOthers (slot_area self.now tag ∷ table_area self.now tag ∷ []) mem.old mem.new }
    {
        self.write_data_slot(mem, tag, desc);
        self.write_table(mem, tag, desc.blocks);
    }

    /// Writes the slot of a data task: its descriptor, and a link to the table of the tag.
    fn write_data_slot(&self, mem: &mut HostMem, tag: u8, desc: &TaskDesc)
        requires layout { HasLayout mem.old self.now }
        requires tag { tag < self.now.depth }
        requires context { desc.now.context < 16 }
        ensures word { task_read (first_word mem.new (list_of self.now) tag) ≡ Ok desc.now }
        ensures link { Reads mem.new self.now.wide (chain_of (list_of self.now) tag) (Ok (Link (table_at self.now tag))) }
        ensures within { ChangesWithin (slot_area self.now tag) mem.old mem.new }
    {
        let slot = self.slot_at(tag);
        let link = Xfer::Link {
            at: self.table_at(tag),
        };
        write_words(mem, slot, write_task(desc), 0, self.wide);
        write_descriptor(mem, slot + self.descriptor_size(), &link, self.wide);
    }

    /// Writes the slot of a direct command, with nothing in its second half (`cqhci_prep_dcmd_desc`).
    fn write_direct_task(&self, mem: &mut HostMem, tag: u8, desc: &DirectDesc)
        requires layout { HasLayout mem.old self.now }
        requires tag { tag < SLOTS }
        requires range { IsDirectInRange desc.now }
        ensures word { direct_read (first_word mem.new (list_of self.now) tag) ≡ Ok desc.now }
        ensures rest { HasNothing mem.new self.now tag }
        ensures within { ChangesWithin (slot_area self.now tag) mem.old mem.new }
    {
        let slot = self.slot_at(tag);
        write_words(mem, slot, write_direct(desc), 0, self.wide);
        write_nothing(mem, slot + self.descriptor_size(), self.wide);
    }
}
