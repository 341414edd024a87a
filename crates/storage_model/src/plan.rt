// Requests, and the contents that they write.
ghost use Rattle.std.specs.Prelude.{◌≡◌};
ghost use Rattle.storage_model.specs.Plan.{IsInList, block_at, is_direct, job_of, ramp};

use crate::{Block, BlockList, Sequence};

/// The contents of a write: one byte throughout, a ramp, or blocks of the plan's list from a place on.
#[derive(Clone, Copy, Debug, PartialEq, Eq)]
pub enum Fill {
    Same(u8),
    Ramp(u8),
    Listed(u32),
}

/// One request. `sector` is its first sector and `blocks` its number of sectors.
#[derive(Clone, Copy, Debug, PartialEq, Eq)]
pub enum Job {
    Read {
        sector: u32,
        blocks: u16,
        high: bool,
    },
    Write {
        sector: u32,
        blocks: u16,
        fill: Fill,
        forced: bool,
        reliable: bool,
        high: bool,
    },
    Flush,
    Barrier,
    Status,
}

pub type JobList = Sequence<Job>;

/// The settings of a run and its requests. Request k is job k of the list, from 1.
#[derive(Debug, Drop)]
pub struct Plan {
    pub depth: u8,
    /// The lines of the cache.
    pub lines: u16,
    /// Whether the cache is off, so that every write goes through.
    pub through: bool,
    /// Whether descriptors are of 128 bits.
    pub wide: bool,
    pub coalesce: u8,
    pub jobs: JobList,
    /// What the fills name.
    pub blocks: BlockList,
}

/// Request `id`, counted from 1.
pub fn job_of(jobs: &JobList, id: u32) -> Job
    ensures { result ≡ job_of jobs.now id }
{
    let place = (id as usize).saturating_sub(1);
    if place < jobs.len() {
        *jobs.at(place)
    } else {
        Job::Flush
    }
}

/// Whether a job is a command of its own: a flush, a barrier or a status (CQHCI's direct commands, DCMD).
pub fn is_direct(job: &Job) -> bool
    ensures { result ≡ is_direct job.now }
{
    matches!(job, Job::Flush | Job::Barrier | Job::Status)
}

/// Block `k` of a fill, counted from 0.
pub fn block_of(plan: &Plan, fill: Fill, k: u16) -> Block
    requires { IsInList plan.now.blocks fill k }
    ensures { result ≡ block_at plan.now.blocks fill k }
{
    match fill {
        Fill::Same(byte) => Block([byte; 512]),
        Fill::Ramp(start) => ramp_block(start, k),
        Fill::Listed(place) => *plan.blocks.at(place as usize + usize::from(k)),
    }
}

// Byte i of block k is start + 31 k + 7 i, modulo 256.
fn ramp_block(start: u8, k: u16) -> Block
    ensures { result.0 ≡ ramp start k 512 }
{
    let mut bytes = [0; 512];
    let base = u32::from(start) + 31 * u32::from(k);
    for (i, byte) in bytes.iter_mut().enumerate() {
        *byte = ((base + 7 * i as u32) % 256) as u8;
    }
    Block(bytes)
}
