// When the lines of answers, of stops and of recoveries may stand.
ghost use Rattle.std.specs.Prelude.{◌≡◌, option_map, slice_get};
ghost use Rattle.storage_machine.specs.Commands.{id_on};
ghost use Rattle.trace_rules.specs.Lines.{data_on, discard_holds, done_holds, fault_holds, is_answer_of, is_answers, is_fault, is_recover_owed, is_refusal, may_discard, read_holds, recover_holds, refused_holds, sector_by_owed, sector_holds, status_holds};
ghost use Rattle.storage_machine.specs.Slots.{tag_of};
ghost use Rattle.storage_machine.specs.declared.slots.Question.TheVariants.{Collected};

use crate::lines::{is_heard, is_number};
use storage_machine::commands::id_on_slot;
use storage_machine::cuts::shows;
use storage_machine::host::{is_fault_of, is_stopped, named_times};
use storage_machine::jobs::{is_read, is_status, job_of};
use storage_machine::slots::{Question, tag_of};
use storage_machine::{Owed, Recovery, State, Stop};
use storage_model::{Block, Limit, Why};

fn is_answers(owed: &Owed) -> bool
    ensures { result ≡ is_answers owed.now }
{
    matches!(owed, Owed::Answers)
}

fn next_answered(s: &State) -> Option<u32>
    ensures { result ≡ option_map (λ tag. id_on s.now tag) (tag_of Collected s.now.slots) }
{
    match tag_of(Question::Collected, &s.slots) {
        None => None,
        Some(tag) => Some(id_on_slot(s, tag)),
    }
}

fn is_answer_of(s: &State, id: u32) -> bool
    ensures { result ≡ is_answer_of s.now id }
{
    is_answers(&s.owed) && is_number(id, next_answered(s))
}

#[tactic(auto, unfolding(crate::specs::Lines::done_holds))]
pub fn done_holds(s: &State, id: u32) -> bool
    ensures { result ≡ done_holds s.now id }
{
    let job = job_of(&s.plan.jobs, id);
    is_answer_of(s, id) && !is_read(&job) && !is_status(&job)
}

#[tactic(auto, unfolding(crate::specs::Lines::read_holds))]
pub fn read_holds(s: &State, id: u32) -> bool
    ensures { result ≡ read_holds s.now id }
{
    is_answer_of(s, id) && is_read(&job_of(&s.plan.jobs, id))
}

#[tactic(auto, unfolding(crate::specs::Lines::status_holds))]
pub fn status_holds(s: &State, id: u32, word: u32) -> bool
    ensures { result ≡ status_holds s.now id word }
{
    is_answer_of(s, id) && is_status(&job_of(&s.plan.jobs, id)) && word == 0x900
}

/// The data of a tag.
pub fn data_on(s: &State, tag: usize) -> &[Block]
    ensures { result.now ≡ data_on s.now tag }
{
    if tag < s.data.len() {
        s.data.at(tag).as_slice()
    } else {
        &[]
    }
}

fn sector_by_owed(s: &State, value: &Block, owed: &Owed) -> bool
    ensures { result ≡ sector_by_owed s.now value.now owed.now }
{
    match owed {
        Owed::Sectors { tag, k } => shows(data_on(s, *tag), *k, value),
        _ => false,
    }
}

#[tactic(auto, unfolding(crate::specs::Lines::sector_holds))]
pub fn sector_holds(s: &State, value: &Block) -> bool
    ensures { result ≡ sector_holds s.now value.now }
{
    sector_by_owed(s, value, &s.owed)
}

fn is_fault(s: &State, id: u32, why: Why, stop: &Stop) -> bool
    ensures { result ≡ is_fault s.now id why stop.now }
{
    match why {
        Why::Bus => match stop {
            Stop::Bus(Some(named)) => id == *named && named_times(s, *named) == 4,
            _ => false,
        },
        Why::Flash => match stop {
            Stop::Flash(named) => id == *named,
            _ => false,
        },
    }
}

fn is_refusal(id: u32, why: Limit, stop: &Stop) -> bool
    ensures { result ≡ is_refusal id why stop.now }
{
    match why {
        Limit::Range => match stop {
            Stop::Range(named) => id == *named,
            _ => false,
        },
        Limit::Align => match stop {
            Stop::Align(named) => id == *named,
            _ => false,
        },
    }
}

#[tactic(auto, unfolding(crate::specs::Lines::fault_holds))]
pub fn fault_holds(s: &State, id: u32, why: Why) -> bool
    ensures { result ≡ fault_holds s.now id why }
{
    is_stopped(s) && is_fault(s, id, why, &s.stop)
}

#[tactic(auto, unfolding(crate::specs::Lines::refused_holds))]
pub fn refused_holds(s: &State, id: u32, why: Limit) -> bool
    ensures { result ≡ refused_holds s.now id why }
{
    is_stopped(s) && is_refusal(id, why, &s.stop)
}

fn is_recover_owed(owed: &Owed) -> bool
    ensures { result ≡ is_recover_owed owed.now }
{
    matches!(owed, Owed::Recover)
}

#[tactic(auto, unfolding(crate::specs::Lines::recover_holds))]
pub fn recover_holds(s: &State) -> bool
    ensures { result ≡ recover_holds s.now }
{
    if is_recover_owed(&s.owed) {
        true
    } else {
        is_stopped(s) && !is_fault_of(s, &s.stop)
    }
}

fn may_discard(recovery: &Recovery) -> bool
    ensures { result ≡ may_discard recovery.now }
{
    matches!(recovery, Recovery::Halted | Recovery::Cleared)
}

#[tactic(auto, unfolding(crate::specs::Lines::discard_holds))]
pub fn discard_holds(s: &State, n: u32) -> bool
    ensures { result ≡ discard_holds s.now n }
{
    is_heard(s, n) && may_discard(&s.recovery)
}
