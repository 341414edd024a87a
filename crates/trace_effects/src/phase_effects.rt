// What a phase does.
ghost use Rattle.std.specs.Prelude.{◌≡◌, nat_le, ◌+◌, ◌<◌, ◌≤◌, ◌^◌, ◌&&◌, ◌||◌, if◌then◌else◌, length, IfOk, IsTrue, OnOk, OnErr};
ghost use Rattle.storage_machine.specs.Commands.{due, hit};
ghost use Rattle.storage_machine.specs.Jobs.{is_in_range, phase_blocks, sector_of};
ghost use Rattle.trace_effects.specs.Phases.{after_blocks, after_done, after_keep, after_marks, after_phase, bars_with, closed_by, data_with, done_with, event_with, is_full, is_of_power, marks_of, named_by, phase_by, read_sectors, tells, with_kept};
ghost use Rattle.trace_rules.specs.Phases.{is_whole, owed_by, phase_holds, tag_due};
ghost use Rattle.storage_machine.specs.Sound.{IsSound};
ghost use Rattle.storage_model.specs.Plan.{IsValidJob, blocks_of};

use crate::keeping::{copy_of, keep_marks, marks_of, remove_tag, sectors_now, with_kept};
use crate::lists::put_in;
use std::alloc::Global;
use storage_machine::commands::{due, hit};
use storage_machine::jobs::{is_direct, is_read, job_of, must_keep};
use storage_machine::slots::{Change, change_slots};
use storage_machine::{Event, Owed, Standing, State, extend};
use storage_model::{BlockList, BusKind, Job, Letter, NoMemory};
use trace_rules::phases::{is_whole, owed_by, tag_due};

fn bars_with(bars: u32, job: &Job) -> u32
    ensures { result ≡ bars_with bars job.now }
{
    match job {
        Job::Barrier => bars.saturating_add(1),
        _ => bars,
    }
}

// The marks of a phase are appended.
fn append_marks(s: &mut State, alloc: Global, job: &Job, count: u16) -> Result<(), NoMemory>
    requires valid { IsValidJob s.old.plan.blocks job.now }
    requires count { count ≤ phase_blocks job.now }
    requires range { sector_of job.now + blocks_of job.now < 2 ^ 32 }
    ensures ok { OnOk result (s.new ≡ after_marks s.old job.now count) }
    ensures err { OnErr result (s.new ≡ s.old) }
{
    let marks = marks_of(alloc, s, job, count)?;
    s.pend.extend(alloc, marks.as_slice())?;
    s.bars = bars_with(s.bars, job);
    Ok(())
}

// They are appended, and what the job names is kept.
#[tactic(auto, unfolding(crate::specs::Phases::after_keep))]
fn keep_appended(s: &mut State, alloc: Global, job: &Job, count: u16) -> Result<(), NoMemory>
    requires valid { IsValidJob s.old.plan.blocks job.now }
    requires count { count ≤ phase_blocks job.now }
    requires range { sector_of job.now + blocks_of job.now < 2 ^ 32 }
    ensures ok { OnOk result (s.new ≡ after_keep (after_marks s.old job.now count) (named_by job.now)) }
    ensures err { OnErr result (s.new ≡ s.old) }
{
    let marks = marks_of(alloc, s, job, count)?;
    let mut all = copy_of(alloc, s.pend.as_slice())?;
    extend(&mut all, alloc, marks.as_slice())?;
    keep_marks(s, alloc, all.as_slice(), job)?;
    s.bars = bars_with(s.bars, job);
    Ok(())
}

fn move_blocks(
    s: &mut State,
    alloc: Global,
    job: &Job,
    count: u16,
    kept: bool,
) -> Result<(), NoMemory>
    requires valid { IsValidJob s.old.plan.blocks job.now }
    requires count { count ≤ phase_blocks job.now }
    requires range { sector_of job.now + blocks_of job.now < 2 ^ 32 }
    ensures ok { OnOk result (s.new ≡ (if kept then after_keep (after_marks s.old job.now count) (named_by job.now) else after_marks s.old job.now count)) }
    ensures err { OnErr result (s.new ≡ s.old) }
{
    if kept {
        keep_appended(s, alloc, job, count)
    } else {
        append_marks(s, alloc, job, count)
    }
}

/// Blocks moved.
#[tactic(auto, unfolding(crate::specs::Phases::after_blocks))]
fn after_blocks(
    s: &mut State,
    alloc: Global,
    job: &Job,
    count: u16,
    kept: bool,
) -> Result<(), NoMemory>
    requires valid { IsValidJob s.old.plan.blocks job.now }
    requires count { count ≤ phase_blocks job.now }
    requires range { sector_of job.now + blocks_of job.now < 2 ^ 32 }
    ensures ok { OnOk result (s.new ≡ after_blocks s.old job.now count kept) }
    ensures err { OnErr result (s.new ≡ s.old) }
{
    let must = s.kept || must_keep(s.plan.through, job);
    move_blocks(s, alloc, job, count, kept)?;
    with_kept(s, must);
    Ok(())
}

fn tells(s: &State, job: &Job) -> bool
    ensures { result ≡ tells s.now job.now }
{
    if is_direct(job) {
        true
    } else {
        s.plan.coalesce == 0
    }
}

fn is_full(s: &State) -> bool
    ensures { result ≡ is_full s.now }
{
    u32::from(s.plan.coalesce) <= u32::from(s.count) + 1
}

fn notice_with(s: &State, job: &Job) -> bool
    ensures { result ≡ (s.now.notice || (tells s.now job.now || is_full s.now)) }
{
    if s.notice {
        return true;
    }
    if tells(s, job) {
        return true;
    }
    is_full(s)
}

fn count_with(s: &State, job: &Job) -> u8
    ensures { result ≡ (if tells s.now job.now then s.now.count else (if is_full s.now then 0 else s.now.count + 1)) }
{
    if tells(s, job) {
        s.count
    } else {
        next_count(s.plan.coalesce, s.count)
    }
}

fn next_count(coalesce: u8, count: u8) -> u8
    ensures { result ≡ (if nat_le coalesce (count + 1) then 0 else count + 1) }
{
    if u32::from(coalesce) <= u32::from(count) + 1 {
        0
    } else {
        count + 1
    }
}

/// The request is done.
#[tactic(auto, unfolding(crate::specs::Phases::after_done))]
fn after_done(s: &mut State, alloc: Global, tag: u8, id: u32, job: &Job, sectors: BlockList)
    ensures { s.new ≡ after_done s.old tag id job.now sectors }
{
    let notice = notice_with(s, job);
    s.count = count_with(s, job);
    s.notice = notice;
    change_slots(&mut s.slots, Change::Move(id, Standing::Done));
    remove_tag(&mut s.order, alloc, tag);
    if is_read(job) {
        put_in(&mut s.data, usize::from(tag), sectors);
    }
}

fn is_of_power(event: &Event) -> bool
    ensures { result ≡ is_of_power event.now }
{
    matches!(event, Event::Told(Letter::Card | Letter::Cut) | Event::Due)
}

fn close(s: &mut State, n: u32, owed: Owed)
    ensures { s.new ≡ closed_by s.old n owed }
{
    s.n = n;
    s.busy = false;
    s.spent = 0;
    s.owed = owed;
    if !is_of_power(&s.event) {
        s.event = Event::Untold;
    }
}

fn done_with(
    s: &mut State,
    alloc: Global,
    tag: u8,
    id: u32,
    job: &Job,
    sectors: BlockList,
    done: bool,
)
    ensures { s.new ≡ done_with s.old tag id job.now sectors done }
{
    if done {
        after_done(s, alloc, tag, id, job, sectors);
    }
}

fn read_sectors(alloc: Global, s: &State, job: &Job) -> Result<BlockList, NoMemory>
    requires { IsTrue (is_in_range job.now (length s.now.base)) }
    ensures { IfOk result (λ sectors. sectors ≡ read_sectors s.now job.now) }
{
    if is_read(job) {
        sectors_now(alloc, s, job)
    } else {
        Ok(BlockList::new(alloc))
    }
}

// A phase by its parts.
fn phase_on(
    s: &mut State,
    alloc: Global,
    job: &Job,
    tag: u8,
    kind: Option<BusKind>,
    item: PhaseLine,
) -> Result<(), NoMemory>
    requires valid { IsValidJob s.old.plan.blocks job.now }
    requires count { item.count ≤ phase_blocks job.now }
    requires range { sector_of job.now + blocks_of job.now < 2 ^ 32 }
    requires inside { IsTrue (is_in_range job.now (length s.old.base)) }
    ensures ok { OnOk result (s.new ≡ phase_by s.old job.now tag kind item.n item.id item.count item.kept) }
    ensures err { OnErr result (s.new ≡ s.old) }
{
    let whole = is_whole(s.plan.through, job, item.count, item.kept);
    let sectors = read_sectors(alloc, s, job)?;
    after_blocks(s, alloc, job, item.count, item.kept)?;
    done_with(
        s,
        alloc,
        tag,
        item.id,
        job,
        sectors,
        whole && kind.is_none(),
    );
    close(s, item.n, owed_by(kind, whole, item.n, item.id, item.count));
    Ok(())
}

/// What a phase line shows.
#[derive(Clone, Copy)]
pub struct PhaseLine {
    pub n: u32,
    pub id: u32,
    pub count: u16,
    pub kept: bool,
}

#[tactic(auto, unfolding(crate::specs::Phases::after_phase))]
pub fn after_phase(s: &mut State, alloc: Global, line: PhaseLine) -> Result<(), NoMemory>
    requires sound { IsSound s.old }
    requires holds { IsTrue (phase_holds s.old line.n line.id line.count line.kept) }
    ensures ok { OnOk result (s.new ≡ after_phase s.old line.n line.id line.count line.kept) }
    ensures err { OnErr result (s.new ≡ s.old) }
{
    let job = job_of(&s.plan.jobs, line.id);
    let kind = hit(s);
    let tag = tag_due(due(s));
    phase_on(s, alloc, &job, tag, kind, line)
}
