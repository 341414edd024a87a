// Marks that a phase appends, and what is kept of them.
ghost use Rattle.std.specs.Prelude.{◌≡◌, ◌==◌, ◌+◌, ◌<◌, ◌≤◌, ◌^◌, ◌||◌, ◌++◌, [], ◌∷◌, if◌then◌else◌, nat_lt, not, length, IfOk, OnOk, OnErr, IsTrue, filter};
ghost use Rattle.storage_model.specs.declared.marks.Mark.TheVariants.{Bar};
ghost use Rattle.storage_machine.specs.Jobs.{is_in_range, phase_blocks, sector_of};
ghost use Rattle.trace_effects.specs.Phases.{after_marks, after_keep, is_empty, marks_of, named_by, puts_of, sectors_now, with_kept};
ghost use Rattle.storage_machine.specs.Sound.{IsSound};
ghost use Rattle.storage_model.specs.Keep.{keep_base, keep_pend};
ghost use Rattle.storage_model.specs.Plan.{IsFillListed, IsValidJob, blocks_of};

use crate::lists::put_in;
use std::alloc::Global;
use std::mem;
use storage_machine::State;
use storage_machine::jobs::{blocks_of, sector_of};
use storage_model::{
    BlockList, Bytes, Fill, Job, Mark, MarkList, NoMemory, Plan, Put, block_of, count_bars,
};

/// The puts of a write's first blocks.
pub fn puts_of(
    alloc: Global,
    plan: &Plan,
    sector: u32,
    fill: Fill,
    reliable: bool,
    count: u16,
) -> Result<MarkList, NoMemory>
    requires listed { IsFillListed plan.now.blocks fill count }
    requires fits { sector + count < 2 ^ 32 }
    ensures { IfOk result (λ marks. marks ≡ puts_of plan.now.blocks sector fill reliable count) }
{
    let mut marks = MarkList::new(alloc);
    for k in 0..count {
        marks.push(Mark::Put(Put {
            sector: sector + u32::from(k),
            value: block_of(plan, fill, k),
            reliable,
        }))?;
    }
    Ok(marks)
}

/// The marks that a phase appends.
pub fn marks_of(alloc: Global, s: &State, job: &Job, count: u16) -> Result<MarkList, NoMemory>
    requires valid { IsValidJob s.now.plan.blocks job.now }
    requires count { count ≤ phase_blocks job.now }
    requires range { sector_of job.now + blocks_of job.now < 2 ^ 32 }
    ensures { IfOk result (λ marks. marks ≡ marks_of s.now job.now count) }
{
    match job {
        Job::Write {
            sector,
            fill,
            reliable,
            ..
        } => puts_of(alloc, &s.plan, *sector, *fill, *reliable, count),
        Job::Barrier => barrier_marks(alloc, s.bars),
        _ => Ok(MarkList::new(alloc)),
    }
}

fn barrier_marks(alloc: Global, bars: u32) -> Result<MarkList, NoMemory>
    ensures { IfOk result (λ marks. marks ≡ (if nat_lt bars 4294967295 then Bar ∷ [] else [])) }
{
    let mut marks = MarkList::new(alloc);
    if bars < u32::MAX {
        marks.push(Mark::Bar)?;
    }
    Ok(marks)
}

/// A list of the same marks.
pub fn copy_of(alloc: Global, list: &[Mark]) -> Result<MarkList, NoMemory>
    ensures { IfOk result (λ copy. copy ≡ list.now) }
{
    Ok(MarkList::from_vec(Vec::from_slice(alloc, list)?))
}

fn is_named(job: &Job, sector: u32) -> bool
    ensures { result ≡ named_by job.now sector }
{
    match job {
        Job::Flush => true,
        _ => {
            let first = u64::from(sector_of(job));
            let sector = u64::from(sector);
            first <= sector && sector < first + u64::from(blocks_of(job))
        }
    }
}

// Whether a put of an epoch is among those that the job keeps.
fn is_durable(epoch: usize, last: usize, job: &Job, sector: u32) -> bool
    ensures { result ≡ (nat_lt epoch last || named_by job.now sector) }
{
    if epoch < last {
        true
    } else {
        is_named(job, sector)
    }
}

// The marks that stay pending.
fn keep_rest(alloc: Global, pend: &[Mark], job: &Job) -> Result<MarkList, NoMemory>
    ensures { IfOk result (λ rest. rest ≡ keep_pend (named_by job.now) pend.now) }
{
    let last = count_bars(pend);
    let mut others = MarkList::new(alloc);
    let mut epoch = 0;
    for mark in pend {
        match mark {
            Mark::Bar => epoch += 1,
            Mark::Put(put) => {
                if !is_durable(epoch, last, job, put.sector) {
                    others.push(*mark)?;
                }
            }
        }
    }
    Ok(others)
}

// Writes what is kept into the contents.
fn keep_into(base: &mut BlockList, pend: &[Mark], job: &Job)
    ensures { base.new ≡ keep_base (named_by job.now) base.old pend.now }
{
    let last = count_bars(pend);
    let mut epoch = 0;
    for mark in pend {
        match mark {
            Mark::Bar => epoch += 1,
            Mark::Put(put) => {
                if is_durable(epoch, last, job, put.sector) {
                    put_in(base, put.sector as usize, put.value);
                }
            }
        }
    }
}

/// Keeps what a job keeps of these marks.
pub fn keep_marks(s: &mut State, alloc: Global, marks: &[Mark], job: &Job) -> Result<(), NoMemory>
    ensures ok { OnOk result (s.new ≡ record s.old { base = keep_base (named_by job.now) s.old.base marks.now; pend = keep_pend (named_by job.now) marks.now }) }
    ensures err { OnErr result (s.new ≡ s.old) }
{
    let rest = keep_rest(alloc, marks, job)?;
    keep_into(&mut s.base, marks, job);
    s.pend.replace(alloc, rest);
    Ok(())
}

/// Notes whether a phase that must be kept came since there were no marks.
pub fn with_kept(s: &mut State, kept: bool)
    ensures { s.new ≡ with_kept s.old kept }
{
    let none = s.pend.len() == 0;
    s.kept = !none && kept;
}

/// The sectors of a read, as they are now.
pub fn sectors_now(alloc: Global, s: &State, job: &Job) -> Result<BlockList, NoMemory>
    requires { IsTrue (is_in_range job.now (length s.now.base)) }
    ensures { IfOk result (λ sectors. sectors ≡ sectors_now s.now job.now) }
{
    let base = s.base.as_slice();
    let first = sector_of(job) as usize;
    let mut sectors = BlockList::new(alloc);
    for k in 0..blocks_of(job) {
        sectors.push(s.pend.value(base, first + usize::from(k)))?;
    }
    Ok(sectors)
}

/// Takes a tag out of an order.
pub fn remove_tag(order: &mut Bytes, alloc: Global, tag: u8)
    ensures { order.new ≡ filter (λ other. not (other == tag)) order.old }
{
    let mut tags = mem::replace(order, Bytes::new(alloc)).into_vec();
    tags.retain(|other| *other != tag);
    *order = Bytes::from_vec(tags);
}
