// Request texts.
ghost use Rattle.std.specs.Prelude.{◌≡◌, ◌+◌, ◌^◌, ◌<◌, ◌≤◌, ◌++◌, ℕ, List, length, IsTrue, ◌↔◌, IfOk, IfErr, IfSome, IfNone, MatchBool, MatchOption};
ghost use Rattle.storage_model.specs.Plan.{IsValidPlan, blocks_of};
ghost use Rattle.storage_model.specs.declared.block.Block.{Block};
ghost use Rattle.storage_model.specs.declared.plan.Job.{Job};
ghost use Rattle.storage_model.specs.declared.plan.Plan.{Plan};
ghost use Rattle.storage_model.specs.declared.ends.TextEnd.TheVariants.{NoMemory as OutOfMemory};
ghost use Rattle.request_text.specs.Lines.{IsFront, NoneSet, AreLines, AreRefused, AreSet, AreWhole, Follows, IsAdded, IsSound, IsTaken, NoneFollows};
ghost use Rattle.request_text.specs.Meaning.{AreRequests, IsRefused, Means};
ghost use Rattle.request_text.specs.Settings.{IsNew, IsSetting, kind_of, plan_of, setting_text, with_setting};
ghost use Rattle.request_text.specs.declared.setting.Setting.{Setting};

use crate::blocks::take_listed;
use crate::request::read_job;
use crate::setting::{Kind, Setting, read_setting};
use std::alloc::Global;
use storage_model::{BlockList, Job, JobList, NoMemory, Plan, Sequence, TextEnd};
use text_words::split_once;

const MAX_BYTES: usize = 16_777_216;

const MAX_REQUESTS: usize = 65_536;

const MAX_BLOCKS: u32 = 131_072;

/// The plan that a text means: its settings come first, each kind at most once, and then its requests. `Bad` gives the
/// first line, counted from 1, with which the text means no plan: one that is no setting and no request, or stands where
/// it may not, or passes a limit: 65,536 requests, 131,072 blocks over all requests, 16 MiB of text. Digits are decoded
/// into the plan's blocks, in the order of their requests. Memory is taken for the plan's lists and its settings.
pub fn read_requests(alloc: Global, bytes: &[u8]) -> Result<Plan, TextEnd>
    ensures means { IfOk result (Means bytes.now) }
    ensures valid { IfOk result IsValidPlan }
    ensures bad { IfErr result (IsRefused bytes.now) }

    // A text that means a plan is read as this plan.
    ensures again { (plan : Plan) → Means bytes.now plan → IfOk result (λ read. read ≡ plan) × IfErr result (λ end. end ≡ OutOfMemory) }
{
    let text = front_of(bytes);
    let lines = read_text(alloc, text)?;
    if text.len() < bytes.len() {
        return Err(TextEnd::Bad {
            line: lines.count() + 1,
        });
    }
    Ok(lines.into_plan())
}

// What a text can have of these bytes.
fn front_of(bytes: &[u8]) -> &[u8]
    ensures { IsFront bytes.now result.now }
{
    if bytes.len() > MAX_BYTES {
        bytes.split_at(MAX_BYTES).0
    } else {
        bytes
    }
}

// The lines of a text.
#[derive(Drop)]
struct Lines {
    settings: Sequence<Setting>,
    jobs: JobList,
    blocks: BlockList,
}

impl Lines {
    fn count(&self) -> u32
        requires { length self.now.settings + length self.now.jobs < 2 ^ 32 }
        ensures { result ≡ length self.now.settings + length self.now.jobs }
    {
        (self.settings.len() + self.jobs.len()) as u32
    }

    fn into_plan(self) -> Plan
        ensures { result ≡ plan_of self.settings self.jobs self.blocks }
    {
        let mut plan = Plan {
            depth: 16,
            lines: 64,
            through: false,
            wide: false,
            coalesce: 0,
            jobs: self.jobs,
            blocks: self.blocks,
        };
        for setting in self.settings.as_slice() {
            set(&mut plan, *setting);
        }
        plan
    }
}

fn set(plan: &mut Plan, setting: Setting)
    ensures { plan.new ≡ with_setting plan.old setting }
{
    match setting {
        Setting::Depth(depth) => plan.depth = depth,
        Setting::Cache(Some(lines)) => plan.lines = lines,
        Setting::Cache(None) => {
            plan.lines = 1024;
            plan.through = true;
        }
        Setting::Descriptors(wide) => plan.wide = wide,
        Setting::Coalesce(count) => plan.coalesce = count,
    }
}

fn read_text(alloc: Global, text: &[u8]) -> Result<Lines, TextEnd>
    requires { length text.now ≤ 16777216 }
    ensures lines { IfOk result (AreLines text.now) }
    ensures bad { IfErr result (IsRefused text.now) }
{
    let (settings, rest) = read_settings(alloc, text)?;
    let requests = read_jobs(alloc, rest, settings.len())?;
    Ok(Lines {
        settings,
        jobs: requests.jobs,
        blocks: requests.blocks,
    })
}

// The settings in front of a text, and what follows them.
fn read_settings(alloc: Global, text: &[u8]) -> Result<(Sequence<Setting>, &[u8]), NoMemory>
    ensures { IfOk result (λ read. AreSet text.now read.0 read.1.now) }
{
    let mut settings = Sequence::new(alloc);
    let mut rest = text;
    while let Some((setting, after)) = next_setting(rest, settings.as_slice()) {
        settings.push(setting)?;
        rest = after;
    }
    Ok((settings, rest))
}

// The setting in front, if there is none of its kind yet, and what follows it.
fn next_setting<'a>(rest: &'a [u8], settings: &[Setting]) -> Option<(Setting, &'a [u8])>
    ensures some { IfSome result (λ next. IsSetting next.0 × IsNew (kind_of next.0) settings.now × (rest.now ≡ setting_text next.0 ++ next.1.now)) }
    ensures none { IfNone result (NoneSet settings.now rest.now) }
{
    let (line, after) = split_once(rest, b'\n')?;
    let setting = read_setting(line)?;
    if has_kind(settings, setting.kind()) {
        return None;
    }
    Some((setting, after))
}

fn has_kind(settings: &[Setting], kind: Kind) -> bool
    ensures { MatchBool result (¬ IsNew kind settings.now) (IsNew kind settings.now) }
{
    for setting in settings {
        if setting.kind() == kind {
            return true;
        }
    }
    false
}

// The requests of a text that follows so many settings, and the blocks that they list.
fn read_jobs(alloc: Global, text: &[u8], settings: usize) -> Result<Requests, TextEnd>
    requires { settings ≤ 16777216 }
    ensures whole { IfOk result (AreWhole text.now) }
    ensures bad { IfErr result (AreRefused text.now settings) }
{
    let mut requests = Requests {
        jobs: JobList::new(alloc),
        blocks: BlockList::new(alloc),
        moved: 0,
    };
    let mut rest = text;
    while !rest.is_empty() {
        let line = (settings + requests.jobs.len() + 1) as u32;
        let Some(after) = requests.next(rest)? else {
            return Err(TextEnd::Bad { line });
        };
        rest = after;
    }
    Ok(requests)
}

// The requests so far, the blocks that they list, and how many sectors they move.
#[derive(Drop)]
struct Requests {
    jobs: JobList,
    blocks: BlockList,
    moved: u32,
}

impl Requests {
    // Takes the line in front, if it is a request and passes no limit, and gives what follows it.
    fn next<'a>(&mut self, rest: &'a [u8]) -> Result<Option<&'a [u8]>, NoMemory>
        requires { IsSound self.old }
        ensures { IfOk result (λ next. MatchOption next (NoneFollows self.old.jobs self.old.blocks rest.now) (λ after. IsTaken self.old rest.now self.new after.now)) }
    {
        let Some((line, after)) = split_once(rest, b'\n') else {
            return Ok(None);
        };
        if self.take(line)? {
            Ok(Some(after))
        } else {
            Ok(None)
        }
    }

    // Adds the request of a line, if it is one and passes no limit. Else what it added is of no use.
    fn take(&mut self, line: &[u8]) -> Result<bool, NoMemory>
        requires { IsSound self.old }
        ensures { IfOk result (λ taken. MatchBool taken (IsAdded self.old line.now self.new) ((job : Job) (more : List Block) → ¬ Follows self.old.jobs self.old.blocks line.now job more)) }
    {
        let Some((job, digits)) = read_job(line, self.blocks.len() as u32) else {
            return Ok(false);
        };
        let moved = self.moved + blocks_moved(&job);
        if !within(self.jobs.len(), moved) {
            return Ok(false);
        }
        if !take_listed(&job, digits, &mut self.blocks)? {
            return Ok(false);
        }
        self.jobs.push(job)?;
        self.moved = moved;
        Ok(true)
    }
}

// Whether one more request can follow so many, with which so many sectors are moved.
fn within(requests: usize, moved: u32) -> bool
    ensures { IsTrue result ↔ ((requests < 65536) × (moved ≤ 131072)) }
{
    requests < MAX_REQUESTS && moved <= MAX_BLOCKS
}

fn blocks_moved(job: &Job) -> u32
    ensures { result ≡ blocks_of job.now }
{
    match job {
        Job::Read { blocks, .. } | Job::Write { blocks, .. } => u32::from(*blocks),
        Job::Flush | Job::Barrier | Job::Status => 0,
    }
}
