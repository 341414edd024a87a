// A plan of draws.
ghost use Rattle.std.specs.Prelude.{◌≡◌, ◌≤◌, ◌<◌, IfOk, false};
ghost use Rattle.storage_model.specs.Plan.{IsValidPlan};
ghost use Rattle.storage_model.specs.declared.plan.Fill.TheVariants.{Ramp};
ghost use Rattle.storage_model.specs.declared.plan.Job.TheVariants.{Write};
ghost use Rattle.load_generator.specs.Load.{job_of, job_of_kind, load_plan};

use crate::draws::Draws;
use std::alloc::Global;
use storage_model::{BlockList, Fill, Job, JobList, NoMemory, Plan};

const REQUESTS: u32 = 4096;

/// The plan of number `n` for an image of so many sectors, from 1 to 65,536: the default settings and 4,096 requests
/// within the image. The only error is want of memory.
pub fn load_plan(alloc: Global, n: u32, sectors: u32) -> Result<Plan, NoMemory>
    requires least { 1 ≤ sectors }
    requires most { sectors ≤ 65536 }
    ensures plan { IfOk result (λ plan. plan ≡ load_plan n sectors) }
    ensures valid { IfOk result IsValidPlan }
{
    let mut draws = Draws { x: n };
    let mut jobs = JobList::new(alloc);
    for place in 0..REQUESTS {
        let kind = draws.next();
        let blocks = draws.next();
        let start = draws.next();
        jobs.push(job_of(sectors, place, kind, blocks, start))?;
    }
    Ok(Plan {
        depth: 16,
        lines: 64,
        through: false,
        wide: false,
        coalesce: 0,
        jobs,
        blocks: BlockList::new(alloc),
    })
}

// The request in a place, counted from 0, by its three draws.
#[tactic(auto, unfolding(crate::specs::Load::job_of))]
fn job_of(sectors: u32, place: u32, kind: u16, blocks: u16, start: u16) -> Job
    requires least { 1 ≤ sectors }
    requires place { place < 4096 }
    ensures { result ≡ job_of sectors place kind blocks start }
{
    let blocks = u32::from(1 + blocks % 16).min(sectors);
    let sector = u32::from(start) % (sectors - blocks + 1);
    let ramp = (place + 1) % 256;
    job_of_kind(kind % 16, sector, blocks as u16, ramp as u8)
}

#[tactic(auto, unfolding(crate::specs::Load::job_of_kind))]
fn job_of_kind(kind: u16, sector: u32, blocks: u16, ramp: u8) -> Job
    ensures { result ≡ job_of_kind kind sector blocks ramp }
{
    if kind < 7 {
        return write(sector, blocks, ramp, false, false);
    }
    if kind < 12 {
        return Job::Read {
            sector,
            blocks,
            high: false,
        };
    }
    match kind {
        12 => write(sector, blocks, ramp, true, false),
        13 => write(sector, blocks, ramp, false, true),
        14 => Job::Barrier,
        _ => Job::Flush,
    }
}

fn write(sector: u32, blocks: u16, ramp: u8, forced: bool, reliable: bool) -> Job
    ensures { result ≡ Write sector blocks (Ramp ramp) forced reliable false }
{
    Job::Write {
        sector,
        blocks,
        fill: Fill::Ramp(ramp),
        forced,
        reliable,
        high: false,
    }
}
