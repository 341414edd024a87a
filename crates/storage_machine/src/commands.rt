// The next command on the bus: which it is, its number, and what befalls it.
ghost use Rattle.std.specs.Prelude.{◌≡◌, ◌==◌, ◌&&◌, find, option_map};
ghost use Rattle.storage_machine.specs.Jobs.{is_high};
ghost use Rattle.storage_machine.specs.Slots.{asks, slot_at};
ghost use Rattle.storage_machine.specs.declared.slots.Question.TheVariants.{Ready};
ghost use Rattle.storage_machine.specs.Commands.{due, command_of_tasks, execute_blocks, execute_or_poll, first_high, hit, id_on, is_calm, is_gone, is_idle, is_kind, is_lost, is_none_due, is_running, job_on, may_tick, meets, met, next_number, next_ready, next_word, polled_mask, queue_first, same_kind};

use crate::jobs::{is_direct, is_high, job_of, phase_blocks};
use crate::slots::{Question, asks, first, has, id_of, mask_of, slot_at};
use crate::{Recovery, State, Stop};
use storage_model::{BusKind, Hit, Job};

/// The command that the engine has to send, with its tag.
#[derive(Clone, Copy)]
pub enum DueCommand {
    Idle,
    Address(u8),
    Params(u8),
    Direct(u8),
    Execute(u8),
    Poll,
}

pub fn next_number(s: &State) -> u32
    ensures { result ≡ next_number s.now }
{
    s.n.saturating_add(1)
}

pub fn is_running(stop: &Stop) -> bool
    ensures { result ≡ is_running stop.now }
{
    matches!(stop, Stop::Running)
}

pub fn is_calm(recovery: &Recovery) -> bool
    ensures { result ≡ is_calm recovery.now }
{
    matches!(recovery, Recovery::Calm)
}

pub fn id_on(s: &State, tag: u8) -> u32
    ensures { result ≡ id_on s.now tag }
{
    id_on_slot(s, usize::from(tag))
}

pub fn id_on_slot(s: &State, tag: usize) -> u32
    ensures { result ≡ id_on s.now tag }
{
    id_of(&slot_at(&s.slots, tag))
}

pub fn job_on(s: &State, tag: u8) -> Job
    ensures { result ≡ job_on s.now tag }
{
    job_of(&s.plan.jobs, id_on(s, tag))
}

fn is_high_ready(s: &State, tag: u8) -> bool
    ensures { result ≡ (asks Ready (slot_at s.now.slots tag) && is_high (job_on s.now tag)) }
{
    asks(Question::Ready, &slot_at(&s.slots, usize::from(tag))) && is_high(&job_on(s, tag))
}

fn first_high(s: &State) -> Option<u8>
    ensures { result ≡ first_high s.now }
{
    s.order
        .as_slice()
        .iter()
        .copied()
        .find(|tag| is_high_ready(s, *tag))
}

fn next_ready(s: &State) -> Option<u8>
    ensures { result ≡ next_ready s.now (first_high s.now) }
{
    match first_high(s) {
        Some(high) => Some(high),
        None => first(Question::Ready, &s.slots, s.order.as_slice()),
    }
}

fn execute_or_poll(s: &State) -> DueCommand
    ensures { result ≡ execute_or_poll s.now (next_ready s.now (first_high s.now)) }
{
    match next_ready(s) {
        Some(ready) => DueCommand::Execute(ready),
        None => {
            if has(Question::Sent, &s.slots) {
                DueCommand::Poll
            } else {
                DueCommand::Idle
            }
        }
    }
}

fn command_of_tasks(s: &State) -> DueCommand
    ensures { result ≡ command_of_tasks s.now }
{
    if s.busy {
        return execute_or_poll(s);
    }
    let named = first(Question::Named, &s.slots, s.order.as_slice());
    let rung = first(Question::Rung, &s.slots, s.order.as_slice());
    match (named, rung) {
        (Some(named), _) => DueCommand::Address(named),
        (None, Some(rung)) => {
            if is_direct(&job_on(s, rung)) {
                DueCommand::Direct(rung)
            } else {
                DueCommand::Params(rung)
            }
        }
        (None, None) => execute_or_poll(s),
    }
}

#[tactic(auto, unfolding(crate::specs::Commands::due))]
pub fn due(s: &State) -> DueCommand
    ensures { result ≡ due s.now }
{
    if is_running(&s.stop) {
        command_of_tasks(s)
    } else {
        DueCommand::Idle
    }
}

fn may_tick(recovery: &Recovery) -> bool
    ensures { result ≡ may_tick recovery.now }
{
    matches!(recovery, Recovery::Calm | Recovery::Resumed)
}

pub fn is_none_due(command: DueCommand) -> bool
    ensures { result ≡ is_none_due command }
{
    matches!(command, DueCommand::Idle)
}

pub fn is_idle(s: &State) -> bool
    ensures { result ≡ is_idle s.now }
{
    is_none_due(due(s)) && is_running(&s.stop) && may_tick(&s.recovery)
}

fn execute_blocks(s: &State, command: DueCommand) -> Option<u16>
    ensures { result ≡ execute_blocks s.now command }
{
    match command {
        DueCommand::Execute(tag) => Some(phase_blocks(&job_on(s, tag))),
        _ => None,
    }
}

fn meets(blocks: Option<u16>, kind: BusKind) -> bool
    ensures { result ≡ meets blocks kind }
{
    match (kind, blocks) {
        (BusKind::Lost | BusKind::NoResp, _) => true,
        (BusKind::Bad(block), Some(blocks)) => block <= blocks,
        (BusKind::Late, Some(_)) => true,
        (_, None) => false,
    }
}

fn met(blocks: Option<u16>, kind: Option<BusKind>) -> Option<BusKind>
    ensures { result ≡ met blocks kind }
{
    match kind {
        None => None,
        Some(kind) => {
            if meets(blocks, kind) {
                Some(kind)
            } else {
                None
            }
        }
    }
}

fn fault_of(bus: &[Hit], n: u32) -> Option<Hit>
    ensures { result ≡ find (λ fault. fault.n == n) bus.now }
{
    bus.iter().copied().find(|fault| fault.n == n)
}

fn kind_of(bus: &[Hit], n: u32) -> Option<BusKind>
    ensures { result ≡ option_map (λ fault. fault.kind) (find (λ fault. fault.n == n) bus.now) }
{
    match fault_of(bus, n) {
        None => None,
        Some(fault) => Some(fault.kind),
    }
}

/// What befalls the next command.
#[tactic(auto, unfolding(crate::specs::Commands::hit))]
pub fn hit(s: &State) -> Option<BusKind>
    ensures { result ≡ hit s.now }
{
    let kind = kind_of(s.faults.faults().bus.as_slice(), next_number(s));
    met(execute_blocks(s, due(s)), kind)
}

pub fn is_lost(kind: Option<BusKind>) -> bool
    ensures { result ≡ is_lost kind }
{
    matches!(kind, Some(BusKind::Lost))
}

/// Whether the engine gets no response.
pub fn is_gone(kind: Option<BusKind>) -> bool
    ensures { result ≡ is_gone kind }
{
    matches!(kind, Some(BusKind::Lost | BusKind::NoResp))
}

fn same_kind(kind: BusKind, other: BusKind) -> bool
    ensures { result ≡ same_kind kind other }
{
    match (kind, other) {
        (BusKind::Bad(block), BusKind::Bad(other)) => block == other,
        (BusKind::Lost, BusKind::Lost)
        | (BusKind::NoResp, BusKind::NoResp)
        | (BusKind::Late, BusKind::Late) => true,
        _ => false,
    }
}

pub fn is_kind(kind: Option<BusKind>, other: BusKind) -> bool
    ensures { result ≡ is_kind kind other }
{
    match kind {
        None => false,
        Some(kind) => same_kind(kind, other),
    }
}

fn next_word(s: &State) -> u32
    ensures { result ≡ next_word s.now }
{
    let words = &s.faults.faults().ready;
    if s.words < words.len() {
        *words.at(s.words)
    } else {
        u32::MAX
    }
}

#[tactic(auto, unfolding(crate::specs::Commands::polled_mask))]
pub fn polled_mask(s: &State) -> u32
    ensures { result ≡ polled_mask s.now }
{
    mask_of(Question::Sent, &s.slots) & next_word(s)
}
