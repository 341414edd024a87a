// The order of events: whose event a line stands in, and the rules that this breaks.
ghost use Rattle.std.specs.Prelude.{◌≡◌, ◌&&◌, ◌||◌, not};
ghost use Rattle.storage_machine.specs.Commands.{is_calm};
ghost use Rattle.storage_machine.specs.Cuts.{is_due};
ghost use Rattle.storage_machine.specs.Host.{has_work};
ghost use Rattle.storage_order.specs.Events.{closed, end_rule, ended};
ghost use Rattle.trace_rules.specs.Steps.{is_cut, lower};
ghost use Rattle.storage_order.specs.Order.{engine_first, entered, forced, is_alone, is_cut_phase, is_next, is_of_cut, is_of_next, is_phase, is_told, left_behind, needs_step, next_actor, order_rule, settled, start_rule, starts, starts_at, untold_steps, with_due};
ghost use Rattle.trace_effects.specs.Effects.{letters_left};
ghost use Rattle.storage_order.specs.Silent.{with_silent};

use crate::events::{end, end_rule, engine_step};
use storage_machine::commands::{is_calm, is_idle};
use storage_machine::cuts::is_due;
use storage_machine::host::{has_work, recovery_steps, to_do};
use storage_machine::{Event, Owed, Recovery, Slot, State};
use storage_model::{Item, Letter};
use trace_effects::letters_left;
use trace_rules::lines::is_free;
use trace_rules::steps::{is_cut, is_cut_by, is_due_event, is_line_of, is_nothing, lower, unless};

/// What an event that prints nothing may change.
#[derive(Clone, Copy)]
pub struct Silent {
    pub slots: [Slot; 32],
    pub recovery: Recovery,
    pub busy: bool,
    pub spent: u32,
    pub notice: bool,
    pub count: u8,
    pub event: Event,
    pub owed: Owed,
}

pub fn silent_of(s: &State) -> Silent
    ensures { with_silent s.now result ≡ s.now }
{
    Silent {
        slots: s.slots,
        recovery: s.recovery,
        busy: s.busy,
        spent: s.spent,
        notice: s.notice,
        count: s.count,
        event: s.event,
        owed: s.owed,
    }
}

pub fn restore(s: &mut State, silent: &Silent)
    ensures { s.new ≡ with_silent s.old silent.now }
{
    s.slots = silent.slots;
    s.recovery = silent.recovery;
    s.busy = silent.busy;
    s.spent = silent.spent;
    s.notice = silent.notice;
    s.count = silent.count;
    s.event = silent.event;
    s.owed = silent.owed;
}

fn is_cut_phase(s: &State, item: &Item) -> bool
    ensures { result ≡ is_cut_phase s.now item.now }
{
    match item {
        Item::Phase { .. } => is_cut_by(s),
        _ => false,
    }
}

fn is_phase(item: &Item) -> bool
    ensures { result ≡ is_phase item.now }
{
    matches!(item, Item::Phase { .. })
}

fn is_forced(s: &State) -> bool
    ensures { result ≡ not (letters_left s.now || has_work s.now) }
{
    if letters_left(s) {
        return false;
    }
    !has_work(s)
}

fn is_of_next(s: &State, letter: Letter, item: &Item) -> bool
    ensures { result ≡ is_of_next s.now letter item.now }
{
    match letter {
        Letter::Engine => is_cut_phase(s, item),
        Letter::Card => is_phase(item) && is_forced(s),
        Letter::Host | Letter::Cut => false,
    }
}

fn is_told(s: &State, letter: Letter, item: &Item) -> bool
    ensures { result ≡ is_told s.now letter item.now }
{
    if !is_nothing(&s.owed) {
        return true;
    }
    is_line_of(letter, is_calm(&s.recovery), item) && !is_of_next(s, letter, item)
}

/// Whether a line begins a further event.
#[tactic(auto, unfolding(crate::specs::Order::starts))]
pub fn starts(s: &State, item: &Item) -> bool
    ensures { result ≡ starts s.now item.now }
{
    if !is_free(&s.owed) {
        return false;
    }
    match s.event {
        Event::Untold => true,
        Event::Due => false,
        Event::Told(letter) => !is_told(s, letter, item),
    }
}

fn needs_step(s: &State, item: &Item) -> bool
    ensures { result ≡ needs_step s.now item.now }
{
    match item {
        Item::Irq { .. } => is_idle(s),
        Item::Phase { .. } => is_cut_by(s) && !s.busy,
        _ => false,
    }
}

fn engine_first(s: &mut State, item: &Item)
    ensures { s.new ≡ engine_first s.old item.now }
{
    if !has_work(s) && needs_step(s, item) {
        engine_step(s);
    }
}

fn is_of_cut(item: &Item) -> bool
    ensures { result ≡ is_of_cut item.now }
{
    matches!(item, Item::Phase { .. } | Item::Cut)
}

fn note_due(s: &mut State, item: &Item)
    ensures { s.new ≡ with_due s.old item.now }
{
    if is_due(s) && is_of_cut(item) {
        s.event = Event::Due;
    }
}

fn has_no_steps(s: &State, item: &Item) -> bool
    ensures { result ≡ (letters_left s.now || (is_due s.now && is_of_cut item.now)) }
{
    if letters_left(s) {
        return true;
    }
    is_due(s) && is_of_cut(item)
}

fn take_untold(s: &mut State, item: &Item)
    ensures { s.new ≡ untold_steps s.old item.now }
{
    if !has_no_steps(s, item) {
        recovery_steps(s);
        engine_first(s, item);
    }
}

/// The events that no letter tells.
#[tactic(auto, unfolding(crate::specs::Order::forced))]
fn force(s: &mut State, item: &Item)
    ensures { s.new ≡ forced s.old item.now }
{
    take_untold(s, item);
    note_due(s, item);
}

fn next_actor(s: &State) -> Letter
    ensures { result ≡ next_actor s.now }
{
    if has_work(s) {
        Letter::Host
    } else {
        Letter::Engine
    }
}

fn is_alone(item: &Item) -> bool
    ensures { result ≡ is_alone item.now }
{
    matches!(item, Item::Turn { .. } | Item::Off { .. })
}

fn is_next(s: &State, item: &Item) -> bool
    ensures { result ≡ is_next s.now item.now }
{
    if is_alone(item) {
        return true;
    }
    if !to_do(s) {
        return true;
    }
    if !is_nothing(&s.owed) && is_cut(item) {
        return true;
    }
    !letters_left(s) && is_line_of(next_actor(s), is_calm(&s.recovery), item)
}

fn start_rule(due: bool, s: &State, item: &Item) -> Option<u8>
    ensures { result ≡ start_rule due s.now item.now }
{
    if is_due_event(s.event) {
        None
    } else {
        lower(unless(is_next(s, item), 12), unless(!due, 15))
    }
}

fn close(owed: Owed) -> Owed
    ensures { result ≡ closed owed }
{
    match owed {
        Owed::Closed => Owed::Nothing,
        _ => owed,
    }
}

fn leave_behind(s: &mut State, item: &Item)
    ensures { s.new ≡ left_behind s.old item.now }
{
    if !is_cut(item) {
        s.owed = close(s.owed);
    }
}

fn begin_event(s: &mut State, item: &Item) -> Option<u8>
    ensures state { s.new ≡ entered s.old item.now }
    ensures rule { result ≡ lower (end_rule s.old) (start_rule (is_due (ended s.old)) (entered s.old item.now) item.now) }
{
    let told = end_rule(s);
    end(s);
    let due = is_due(s);
    leave_behind(s, item);
    force(s, item);
    lower(told, start_rule(due, s, item))
}

/// Goes to the state in whose event the line stands, and answers the lowest rule of 12 to 15 that this breaks.
#[tactic(auto, unfolding(crate::specs::Order::settled, crate::specs::Order::order_rule))]
pub fn settle(s: &mut State, item: &Item) -> Option<u8>
    ensures state { s.new ≡ settled s.old item.now }
    ensures rule { result ≡ order_rule s.old item.now }
{
    if starts(s, item) {
        begin_event(s, item)
    } else {
        None
    }
}
