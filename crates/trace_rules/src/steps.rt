// A line within its event: the rules that it breaks.
ghost use Rattle.std.specs.Prelude.{◌≡◌, ◌||◌, not};
ghost use Rattle.storage_machine.specs.Commands.{is_calm};
ghost use Rattle.storage_machine.specs.Cuts.{least};
ghost use Rattle.trace_rules.specs.Lines.{holds, is_off, line_rule, owing_past};
ghost use Rattle.trace_rules.specs.Steps.{earlier, event_rule, is_cleared, is_cut, is_cut_by, is_due_event, is_execute, is_first_work, is_left_so, is_line_of, is_nothing, is_under_way, lower, rule_of_event, stands_in, stands_of_power, unless, yields_to_cut};

use crate::answers::{
    discard_holds, done_holds, fault_holds, read_holds, recover_holds, refused_holds, sector_holds,
    status_holds,
};
use crate::lines::{
    address_holds, bus_holds, card_holds, flash_holds, irq_holds, is_for, is_pair, owing,
    params_holds, poll_holds, rule_of, turn_holds,
};
use crate::phases::phase_holds;
use crate::power::{cut_holds, left_holds, lost_holds, may_be_on, off_holds, on_holds};
use storage_machine::commands::{DueCommand, due, is_calm};
use storage_machine::cuts::{has_own_line, shows};
use storage_machine::host::{is_irq_due, next_issue};
use storage_machine::{Event, Owed, Recovery, State};
use storage_model::{Item, Letter};

/// Whether a line's own rule holds.
#[tactic(auto, unfolding(crate::specs::Lines::holds))]
pub fn holds(s: &State, item: &Item) -> bool
    ensures { result ≡ holds s.now item.now }
{
    match item {
        Item::Card {
            sectors,
            depth,
            lines,
        } => card_holds(s, *sectors, *depth, *lines),
        Item::Turn { letter } => turn_holds(s, *letter),
        Item::Issue { id, tag } => is_pair(*id, *tag, next_issue(s)),
        Item::Params { n, id } => params_holds(s, *n, *id),
        Item::Address { n, id } => address_holds(s, *n, *id),
        Item::Poll { n, mask } => poll_holds(s, *n, *mask),
        Item::Phase { n, id, count, kept } => phase_holds(s, *n, *id, *count, *kept),
        Item::Bus { n, kind, id } => bus_holds(s, *n, *kind, *id),
        Item::Flash { id } => flash_holds(s, *id),
        Item::Irq { mask } => irq_holds(s, *mask),
        Item::Done { id } => done_holds(s, *id),
        Item::Read { id } => read_holds(s, *id),
        Item::Sector { value } => sector_holds(s, value),
        Item::Status { id, word } => status_holds(s, *id, *word),
        Item::Recover => recover_holds(s),
        Item::Discard { n } => discard_holds(s, *n),
        Item::Fault { id, why } => fault_holds(s, *id, *why),
        Item::Refused { id, why } => refused_holds(s, *id, *why),
        Item::Cut => cut_holds(s),
        Item::Lost { id } => lost_holds(s, *id),
        Item::On => on_holds(s),
        Item::Left { sector, value } => left_holds(s, *sector, value),
        Item::Off { end } => off_holds(s, *end),
    }
}

fn lower_rule(owed: Option<u8>, rule: u8) -> Option<u8>
    ensures { result ≡ least owed rule }
{
    match owed {
        None => Some(rule),
        Some(owed) => Some(owed.min(rule)),
    }
}

fn is_off(item: &Item) -> bool
    ensures { result ≡ is_off item.now }
{
    matches!(item, Item::Off { .. })
}

fn owing_past(s: &State, item: &Item) -> Option<u8>
    ensures { result ≡ owing_past s.now item.now }
{
    if is_off(item) && may_be_on(s, &s.owed) {
        None
    } else {
        owing(&s.owed)
    }
}

/// The lowest rule of 1 to 11 that a line breaks.
#[tactic(auto, unfolding(crate::specs::Lines::line_rule))]
pub fn line_rule(s: &State, item: &Item) -> Option<u8>
    ensures { result ≡ line_rule s.now item.now }
{
    if holds(s, item) {
        if is_for(&s.owed, item) {
            None
        } else {
            owing(&s.owed)
        }
    } else {
        lower_rule(owing_past(s, item), rule_of(item))
    }
}

pub fn lower(broken: Option<u8>, rule: Option<u8>) -> Option<u8>
    ensures { result ≡ lower broken rule }
{
    match (broken, rule) {
        (None, rule) => rule,
        (Some(broken), None) => Some(broken),
        (Some(broken), Some(rule)) => Some(broken.min(rule)),
    }
}

pub fn unless(holds: bool, rule: u8) -> Option<u8>
    ensures { result ≡ unless holds rule }
{
    if holds { None } else { Some(rule) }
}

/// Whether a line is one of an actor's events.
pub fn is_line_of(letter: Letter, calm: bool, item: &Item) -> bool
    ensures { result ≡ is_line_of letter calm item.now }
{
    match letter {
        Letter::Host => match item {
            Item::Issue { .. }
            | Item::Irq { .. }
            | Item::Fault { .. }
            | Item::Refused { .. }
            | Item::Recover
            | Item::Discard { .. } => true,
            Item::Bus { .. } => !calm,
            _ => false,
        },
        Letter::Engine => match item {
            Item::Params { .. }
            | Item::Address { .. }
            | Item::Poll { .. }
            | Item::Phase { .. }
            | Item::Cut => true,
            Item::Bus { .. } => calm,
            _ => false,
        },
        Letter::Card => matches!(item, Item::Flash { .. } | Item::Phase { .. } | Item::Cut),
        Letter::Cut => matches!(item, Item::Phase { .. } | Item::Cut),
    }
}

pub fn is_cut(item: &Item) -> bool
    ensures { result ≡ is_cut item.now }
{
    matches!(item, Item::Cut)
}

pub fn is_nothing(owed: &Owed) -> bool
    ensures { result ≡ is_nothing owed.now }
{
    matches!(owed, Owed::Nothing)
}

fn is_under_way(busy: bool, item: &Item) -> bool
    ensures { result ≡ is_under_way busy item.now }
{
    match item {
        Item::Phase { .. } => busy,
        _ => true,
    }
}

fn stands_of_power(s: &State, letter: Letter, item: &Item) -> bool
    ensures { result ≡ stands_of_power s.now letter item.now }
{
    if is_nothing(&s.owed) {
        is_line_of(letter, is_calm(&s.recovery), item) && is_under_way(s.busy, item)
    } else {
        is_cut(item)
    }
}

fn stands_of(s: &State, letter: Letter, item: &Item) -> bool
    ensures { result ≡ (not (is_nothing s.now.owed) || is_line_of letter (is_calm s.now.recovery) item.now) }
{
    if is_nothing(&s.owed) {
        is_line_of(letter, is_calm(&s.recovery), item)
    } else {
        true
    }
}

fn stands_in(s: &State, event: Event, item: &Item) -> bool
    ensures { result ≡ stands_in s.now event item.now }
{
    match event {
        Event::Untold => true,
        Event::Due => stands_of_power(s, Letter::Cut, item),
        Event::Told(Letter::Card) => stands_of_power(s, Letter::Card, item),
        Event::Told(Letter::Cut) => stands_of_power(s, Letter::Cut, item),
        Event::Told(Letter::Host) => stands_of(s, Letter::Host, item),
        Event::Told(Letter::Engine) => stands_of(s, Letter::Engine, item),
    }
}

fn rule_of_event(event: Event) -> u8
    ensures { result ≡ rule_of_event event }
{
    match event {
        Event::Due => 15,
        _ => 12,
    }
}

fn is_cleared(recovery: &Recovery) -> bool
    ensures { result ≡ is_cleared recovery.now }
{
    matches!(recovery, Recovery::Cleared)
}

fn is_first_work(s: &State, item: &Item) -> bool
    ensures { result ≡ is_first_work s.now item.now }
{
    match item {
        Item::Issue { .. } => !is_irq_due(s),
        Item::Irq { .. } => is_calm(&s.recovery),
        Item::Discard { .. } => is_cleared(&s.recovery),
        Item::Bus { .. } => is_calm(&s.recovery) || is_cleared(&s.recovery),
        _ => true,
    }
}

pub fn is_due_event(event: Event) -> bool
    ensures { result ≡ is_due_event event }
{
    matches!(event, Event::Due)
}

fn is_execute(command: DueCommand) -> bool
    ensures { result ≡ is_execute command }
{
    matches!(command, DueCommand::Execute(_))
}

/// Whether the next command executes a task and has a `cut` line of its own.
pub fn is_cut_by(s: &State) -> bool
    ensures { result ≡ is_cut_by s.now }
{
    has_own_line(s) && is_execute(due(s))
}

fn yields_to_cut(s: &State, item: &Item) -> bool
    ensures { result ≡ yields_to_cut s.now item.now }
{
    match item {
        Item::Phase { count, .. } => {
            if is_cut_by(s) {
                is_due_event(s.event) && *count == 0
            } else {
                true
            }
        }
        _ => true,
    }
}

fn is_left_so(s: &State, item: &Item) -> bool
    ensures { result ≡ is_left_so s.now item.now }
{
    match item {
        Item::Left { sector, value } => {
            if s.deferred {
                shows(s.base.as_slice(), *sector as usize, value)
            } else {
                true
            }
        }
        _ => true,
    }
}

fn earlier(broken: Option<u8>, rule: Option<u8>) -> Option<u8>
    ensures { result ≡ earlier broken rule }
{
    match broken {
        None => rule,
        Some(broken) => Some(broken),
    }
}

/// The lowest rule of 12 to 16 that a line breaks within its event.
#[tactic(auto, unfolding(crate::specs::Steps::event_rule))]
pub fn event_rule(s: &State, item: &Item) -> Option<u8>
    ensures { result ≡ event_rule s.now item.now }
{
    let stands = unless(stands_in(s, s.event, item), rule_of_event(s.event));
    let so = unless(is_left_so(s, item), 16);
    let yields = earlier(unless(yields_to_cut(s, item), 15), so);
    lower(stands, earlier(unless(is_first_work(s, item), 13), yields))
}
