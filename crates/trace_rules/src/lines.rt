// Each line of a trace: the rule that it is under, and when it may stand.
ghost use Rattle.std.specs.Prelude.{◌≡◌, slice_get};
ghost use Rattle.trace_rules.specs.Lines.{rule_of, owing, is_free, is_for, is_number, same_lines, is_card_owed, card_holds, same_letter, is_letter, owes_nothing, turn_holds, is_pair, is_params, is_address, is_poll, is_heard, params_holds, address_holds, poll_holds, is_target, is_missed, is_missed_now, bus_by_owed, bus_holds, is_card_event, flash_by_owed, flash_holds, irq_holds};

use storage_machine::commands::{
    DueCommand, due, hit, id_on, is_gone, is_kind, is_lost, next_number, polled_mask,
};
use storage_machine::host::is_irq_due;
use storage_machine::slots::{Question, mask_of};
use storage_machine::{Event, Owed, Recovery, State};
use storage_model::{BusKind, Item, Letter};

/// The rule that a line is under: 1 to 11.
pub fn rule_of(item: &Item) -> u8
    ensures { result ≡ rule_of item.now }
{
    match item {
        Item::Card { .. } => 1,
        Item::Turn { .. } => 2,
        Item::Issue { .. } => 3,
        Item::Params { .. } | Item::Address { .. } | Item::Poll { .. } => 4,
        Item::Phase { .. } => 5,
        Item::Bus { .. } => 6,
        Item::Flash { .. } => 7,
        Item::Irq { .. }
        | Item::Done { .. }
        | Item::Read { .. }
        | Item::Sector { .. }
        | Item::Status { .. } => 8,
        Item::Recover | Item::Discard { .. } | Item::Fault { .. } | Item::Refused { .. } => 9,
        Item::Cut | Item::Lost { .. } | Item::On | Item::Left { .. } => 10,
        Item::Off { .. } => 11,
    }
}

/// The rule of the line that owes another, where one does.
pub fn owing(owed: &Owed) -> Option<u8>
    ensures { result ≡ owing owed.now }
{
    match owed {
        Owed::Nothing | Owed::Closed => None,
        Owed::Card => Some(1),
        Owed::Bus { .. } | Owed::Flash { .. } => Some(5),
        Owed::Answers | Owed::Sectors { .. } => Some(8),
        Owed::Recover => Some(9),
        Owed::Dark { .. } | Owed::Left { .. } => Some(10),
        Owed::End => Some(11),
    }
}

pub fn is_free(owed: &Owed) -> bool
    ensures { result ≡ is_free owed.now }
{
    matches!(owed, Owed::Nothing | Owed::Closed)
}

/// Whether a line is of those that are owed.
pub fn is_for(owed: &Owed, item: &Item) -> bool
    ensures { result ≡ is_for owed.now item.now }
{
    match owed {
        Owed::Nothing | Owed::Closed => true,
        Owed::Card => matches!(item, Item::Card { .. }),
        Owed::Bus { .. } => matches!(item, Item::Bus { .. } | Item::Cut),
        Owed::Flash { .. } => matches!(item, Item::Flash { .. } | Item::Cut),
        Owed::Answers => matches!(
            item,
            Item::Done { .. } | Item::Read { .. } | Item::Status { .. }
        ),
        Owed::Sectors { .. } => matches!(item, Item::Sector { .. }),
        Owed::Recover => matches!(item, Item::Recover),
        Owed::Dark { .. } => {
            matches!(
                item,
                Item::Cut | Item::Lost { .. } | Item::On | Item::Off { .. }
            )
        }
        Owed::Left { .. } => matches!(item, Item::Left { .. } | Item::Off { .. }),
        Owed::End => false,
    }
}

pub fn is_number(n: u32, number: Option<u32>) -> bool
    ensures { result ≡ is_number n number }
{
    match number {
        None => false,
        Some(m) => n == m,
    }
}

fn same_lines(through: bool, lines: u16, shown: Option<u16>) -> bool
    ensures { result ≡ same_lines through lines shown }
{
    match shown {
        None => through,
        Some(shown) => !through && shown == lines,
    }
}

fn is_card_owed(owed: &Owed) -> bool
    ensures { result ≡ is_card_owed owed.now }
{
    matches!(owed, Owed::Card)
}

#[tactic(auto, unfolding(crate::specs::Lines::card_holds))]
pub fn card_holds(s: &State, sectors: u32, depth: u8, lines: Option<u16>) -> bool
    ensures { result ≡ card_holds s.now sectors depth lines }
{
    is_card_owed(&s.owed)
        && sectors as usize == s.base.len()
        && depth == s.plan.depth
        && same_lines(s.plan.through, s.plan.lines, lines)
}

fn same_letter(letter: Letter, other: Letter) -> bool
    ensures { result ≡ same_letter letter other }
{
    match letter {
        Letter::Host => matches!(other, Letter::Host),
        Letter::Engine => matches!(other, Letter::Engine),
        Letter::Card => matches!(other, Letter::Card),
        Letter::Cut => matches!(other, Letter::Cut),
    }
}

fn is_letter_at(letters: &[Letter], place: usize, letter: Letter) -> bool
    ensures { result ≡ is_letter letter (slice_get letters.now place) }
{
    match letters.get(place) {
        None => false,
        Some(next) => same_letter(letter, *next),
    }
}

fn owes_nothing(owed: &Owed) -> bool
    ensures { result ≡ owes_nothing owed.now }
{
    match owed {
        Owed::End => true,
        _ => is_free(owed),
    }
}

#[tactic(auto, unfolding(crate::specs::Lines::turn_holds))]
pub fn turn_holds(s: &State, letter: Letter) -> bool
    ensures { result ≡ turn_holds s.now letter }
{
    owes_nothing(&s.owed) && is_letter_at(s.faults.faults().turns.as_slice(), s.letters, letter)
}

pub fn is_pair(id: u32, tag: u8, pair: Option<(usize, usize)>) -> bool
    ensures { result ≡ is_pair id tag pair }
{
    match pair {
        None => false,
        Some(pair) => id as usize == pair.0 && usize::from(tag) == pair.1,
    }
}

fn is_params(s: &State, id: u32, command: DueCommand) -> bool
    ensures { result ≡ is_params s.now id command }
{
    match command {
        DueCommand::Params(tag) => id_on(s, tag) == id,
        _ => false,
    }
}

fn is_address(s: &State, id: u32, command: DueCommand) -> bool
    ensures { result ≡ is_address s.now id command }
{
    match command {
        DueCommand::Address(tag) => id_on(s, tag) == id,
        _ => false,
    }
}

pub fn is_poll(command: DueCommand) -> bool
    ensures { result ≡ is_poll command }
{
    matches!(command, DueCommand::Poll)
}

pub fn is_heard(s: &State, n: u32) -> bool
    ensures { result ≡ is_heard s.now n }
{
    n == next_number(s) && !is_gone(hit(s))
}

#[tactic(auto, unfolding(crate::specs::Lines::params_holds))]
pub fn params_holds(s: &State, n: u32, id: u32) -> bool
    ensures { result ≡ params_holds s.now n id }
{
    is_heard(s, n) && is_params(s, id, due(s))
}

#[tactic(auto, unfolding(crate::specs::Lines::address_holds))]
pub fn address_holds(s: &State, n: u32, id: u32) -> bool
    ensures { result ≡ address_holds s.now n id }
{
    is_heard(s, n) && is_address(s, id, due(s))
}

#[tactic(auto, unfolding(crate::specs::Lines::poll_holds))]
pub fn poll_holds(s: &State, n: u32, mask: u32) -> bool
    ensures { result ≡ poll_holds s.now n mask }
{
    is_heard(s, n) && is_poll(due(s)) && mask == polled_mask(s)
}

fn is_target(s: &State, kind: BusKind, id: Option<u32>, command: DueCommand) -> bool
    ensures { result ≡ is_target s.now kind id command }
{
    match command {
        DueCommand::Idle => false,
        DueCommand::Poll => id.is_none(),
        DueCommand::Direct(tag) => is_number(id_on(s, tag), id) && is_lost(Some(kind)),
        DueCommand::Params(tag) | DueCommand::Address(tag) | DueCommand::Execute(tag) => {
            is_number(id_on(s, tag), id)
        }
    }
}

fn is_missed(s: &State, kind: BusKind, id: Option<u32>, recovery: &Recovery) -> bool
    ensures { result ≡ is_missed s.now kind id recovery.now }
{
    match recovery {
        Recovery::Halted | Recovery::Cleared => id.is_none(),
        _ => is_target(s, kind, id, due(s)),
    }
}

fn is_missed_now(s: &State, n: u32, kind: BusKind, id: Option<u32>) -> bool
    ensures { result ≡ is_missed_now s.now n kind id }
{
    n == next_number(s)
        && is_gone(Some(kind))
        && is_kind(hit(s), kind)
        && is_missed(s, kind, id, &s.recovery)
}

fn bus_by_owed(s: &State, n: u32, kind: BusKind, id: Option<u32>, owed: &Owed) -> bool
    ensures { result ≡ bus_by_owed s.now n kind id owed.now }
{
    match owed {
        Owed::Bus {
            n: m,
            id: owed_id,
            kind: owed_kind,
        } => n == *m && is_number(*owed_id, id) && is_kind(Some(*owed_kind), kind),
        _ => is_missed_now(s, n, kind, id),
    }
}

#[tactic(auto, unfolding(crate::specs::Lines::bus_holds))]
pub fn bus_holds(s: &State, n: u32, kind: BusKind, id: Option<u32>) -> bool
    ensures { result ≡ bus_holds s.now n kind id }
{
    bus_by_owed(s, n, kind, id, &s.owed)
}

fn is_card_event(event: &Event) -> bool
    ensures { result ≡ is_card_event event.now }
{
    matches!(event, Event::Told(Letter::Card))
}

fn flash_by_owed(event: &Event, id: Option<u32>, owed: &Owed) -> bool
    ensures { result ≡ flash_by_owed event.now id owed.now }
{
    match id {
        Some(id) => match owed {
            Owed::Flash { id: owed_id } => id == *owed_id,
            _ => false,
        },
        None => match owed {
            Owed::Nothing => is_card_event(event),
            _ => false,
        },
    }
}

#[tactic(auto, unfolding(crate::specs::Lines::flash_holds))]
pub fn flash_holds(s: &State, id: Option<u32>) -> bool
    ensures { result ≡ flash_holds s.now id }
{
    flash_by_owed(&s.event, id, &s.owed)
}

#[tactic(auto, unfolding(crate::specs::Lines::irq_holds))]
pub fn irq_holds(s: &State, mask: u32) -> bool
    ensures { result ≡ irq_holds s.now mask }
{
    is_irq_due(s) && mask == mask_of(Question::Done, &s.slots)
}
