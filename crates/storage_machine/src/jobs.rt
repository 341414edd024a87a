// What a request asks for.
ghost use Rattle.std.specs.Prelude.{◌≡◌};
ghost use Rattle.storage_machine.specs.Jobs.{is_direct, is_high, is_in_range, is_read, is_status, job_of, may_keep, may_move, must_keep, phase_blocks, sector_of};
ghost use Rattle.storage_model.specs.Plan.{blocks_of};

use storage_model::{Job, JobList};

/// Request `id`, counted from 1.
pub fn job_of(jobs: &JobList, id: u32) -> Job
    ensures { result ≡ job_of jobs.now id }
{
    let place = (id as usize).saturating_sub(1);
    if place < jobs.len() {
        *jobs.at(place)
    } else {
        Job::Flush
    }
}

/// Whether it is one command on the last slot.
pub fn is_direct(job: &Job) -> bool
    ensures { result ≡ is_direct job.now }
{
    matches!(job, Job::Flush | Job::Barrier | Job::Status)
}

pub fn is_read(job: &Job) -> bool
    ensures { result ≡ is_read job.now }
{
    matches!(job, Job::Read { .. })
}

pub fn is_status(job: &Job) -> bool
    ensures { result ≡ is_status job.now }
{
    matches!(job, Job::Status)
}

pub fn is_high(job: &Job) -> bool
    ensures { result ≡ is_high job.now }
{
    match job {
        Job::Read { high, .. } | Job::Write { high, .. } => *high,
        _ => false,
    }
}

pub fn sector_of(job: &Job) -> u32
    ensures { result ≡ sector_of job.now }
{
    match job {
        Job::Read { sector, .. } | Job::Write { sector, .. } => *sector,
        _ => 0,
    }
}

pub fn blocks_of(job: &Job) -> u16
    ensures { result ≡ blocks_of job.now }
{
    match job {
        Job::Read { blocks, .. } | Job::Write { blocks, .. } => *blocks,
        _ => 0,
    }
}

/// How many blocks its phase moves; that of a direct request counts as one.
pub fn phase_blocks(job: &Job) -> u16
    ensures { result ≡ phase_blocks job.now }
{
    if is_direct(job) { 1 } else { blocks_of(job) }
}

pub fn is_in_range(job: &Job, sectors: usize) -> bool
    ensures { result ≡ is_in_range job.now sectors }
{
    sector_of(job) as usize + blocks_of(job) as usize <= sectors
}

/// Whether its data is to be durable when it is done.
pub fn must_keep(through: bool, job: &Job) -> bool
    ensures { result ≡ must_keep through job.now }
{
    match job {
        Job::Write {
            forced,
            reliable,
            ..
        } => through || *forced || *reliable,
        Job::Flush => true,
        _ => false,
    }
}

/// Whether its phase may say that it kept.
pub fn may_keep(through: bool, job: &Job, count: u16, kept: bool) -> bool
    ensures { result ≡ may_keep through job.now count kept }
{
    match job {
        Job::Flush => { if kept { count == 1 } else { count == 0 } }
        Job::Write { blocks, .. } => {
            if kept {
                must_keep(through, job) && count == *blocks
            } else {
                true
            }
        }
        _ => !kept,
    }
}

/// Whether so many blocks may have moved where `most` come through.
pub fn may_move(job: &Job, most: u16, count: u16) -> bool
    ensures { result ≡ may_move job.now most count }
{
    match job {
        Job::Status | Job::Barrier => count == 1,
        _ => count <= most,
    }
}
