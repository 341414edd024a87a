// What the host has to do: steps of a recovery, answers, the next request.
ghost use Rattle.std.specs.Prelude.{◌≡◌, ◌+◌, ◌<◌, ◌^◌, IfSome};
ghost use Rattle.storage_machine.specs.Jobs.{job_of};
ghost use Rattle.storage_machine.specs.Host.{below, has_work, is_fault_of, is_irq_due, is_silent, is_stopped, issue_of, named_times, next_issue, recovery_step, recovery_steps, tag_for, to_do};

use crate::commands::{is_calm, is_running};
use crate::jobs::{is_direct, job_of};
use crate::slots::{Question, asks, has, no_tasks, slot_at, tag_of};
use crate::{Recovery, State, Stop};
use storage_model::Job;

/// Whether a request waits or is issued, or a recovery is under way.
#[tactic(auto, unfolding(crate::specs::Host::to_do))]
pub fn to_do(s: &State) -> bool
    ensures { result ≡ to_do s.now }
{
    if s.waiting.has_any() {
        return true;
    }
    if has(Question::Issued, &s.slots) {
        return true;
    }
    !is_calm(&s.recovery)
}

fn below(depth: u8, tag: Option<usize>) -> Option<usize>
    ensures { result ≡ below depth tag }
{
    match tag {
        None => None,
        Some(tag) => {
            if tag < usize::from(depth) {
                Some(tag)
            } else {
                None
            }
        }
    }
}

fn tag_for(s: &State, job: &Job) -> Option<usize>
    ensures { result ≡ tag_for s.now job.now }
{
    if is_direct(job) {
        if has(Question::Issued, &s.slots) {
            None
        } else {
            Some(31)
        }
    } else if asks(Question::Issued, &slot_at(&s.slots, 31)) {
        None
    } else {
        below(s.plan.depth, tag_of(Question::Vacant, &s.slots))
    }
}

fn issue_of(s: &State, place: Option<usize>) -> Option<(usize, usize)>
    requires { IfSome place (λ p. p < 2 ^ 63) }
    ensures { result ≡ issue_of s.now place }
{
    match place {
        None => None,
        Some(place) => match tag_for(s, &job_at(s, place)) {
            None => None,
            Some(tag) => Some((place + 1, tag)),
        },
    }
}

fn job_at(s: &State, place: usize) -> Job
    requires { place < 2 ^ 63 }
    ensures { result ≡ job_of s.now.plan.jobs (place + 1) }
{
    if place < s.plan.jobs.len() {
        *s.plan.jobs.at(place)
    } else {
        Job::Flush
    }
}

/// The request that may be issued now, and its tag.
#[tactic(auto, unfolding(crate::specs::Host::next_issue))]
pub fn next_issue(s: &State) -> Option<(usize, usize)>
    ensures { result ≡ next_issue s.now }
{
    if is_running(&s.stop) && is_calm(&s.recovery) {
        issue_of(s, s.waiting.first())
    } else {
        None
    }
}

/// Whether requests are done and the host is told so, or the engine has stopped.
pub fn is_irq_due(s: &State) -> bool
    ensures { result ≡ is_irq_due s.now }
{
    if has(Question::Done, &s.slots) {
        s.notice || !is_running(&s.stop)
    } else {
        false
    }
}

#[tactic(auto, unfolding(crate::specs::Host::has_work))]
pub fn has_work(s: &State) -> bool
    ensures { result ≡ has_work s.now }
{
    if !is_calm(&s.recovery) {
        return true;
    }
    if !is_running(&s.stop) {
        return true;
    }
    if is_irq_due(s) {
        return true;
    }
    next_issue(s).is_some()
}

/// Whether the next step of the recovery prints nothing.
pub fn is_silent(recovery: &Recovery) -> bool
    ensures { result ≡ is_silent recovery.now }
{
    !matches!(recovery, Recovery::Calm | Recovery::Cleared)
}

/// Takes that step. At the last one the held requests only wait.
#[tactic(auto, unfolding(crate::specs::Host::recovery_step))]
pub fn recovery_step(s: &mut State)
    ensures { s.new ≡ recovery_step s.old }
{
    match s.recovery {
        Recovery::Halted => s.recovery = Recovery::Cleared,
        Recovery::Discarded => s.recovery = Recovery::Cleaned,
        Recovery::Cleaned => s.recovery = Recovery::Resumed,
        Recovery::Resumed => {
            s.recovery = Recovery::Calm;
            s.slots = no_tasks();
        }
        Recovery::Calm | Recovery::Cleared => {}
    }
}

/// Takes all such steps.
#[tactic(auto, unfolding(crate::specs::Host::recovery_steps))]
pub fn recovery_steps(s: &mut State)
    ensures { s.new ≡ recovery_steps s.old }
{
    match s.recovery {
        Recovery::Halted => s.recovery = Recovery::Cleared,
        Recovery::Discarded | Recovery::Cleaned | Recovery::Resumed => {
            s.recovery = Recovery::Calm;
            s.slots = no_tasks();
        }
        Recovery::Calm | Recovery::Cleared => {}
    }
}

/// How many bus faults named a request.
pub fn named_times(s: &State, id: u32) -> u8
    ensures { result ≡ named_times s.now id }
{
    let place = (id as usize).saturating_sub(1);
    if place < s.named.len() {
        *s.named.at(place)
    } else {
        0
    }
}

/// Whether the stop gives an answer to the request that it names.
pub fn is_fault_of(s: &State, stop: &Stop) -> bool
    ensures { result ≡ is_fault_of s.now stop.now }
{
    match stop {
        Stop::Bus(Some(id)) => named_times(s, *id) == 4,
        Stop::Flash(_) | Stop::Range(_) | Stop::Align(_) => true,
        Stop::Bus(None) | Stop::Running => false,
    }
}

/// Whether the engine has stopped, and no answer is to be given before the recovery.
pub fn is_stopped(s: &State) -> bool
    ensures { result ≡ is_stopped s.now }
{
    !is_running(&s.stop) && is_calm(&s.recovery) && !has(Question::Done, &s.slots)
}
