// What the lines of letters, of the queue and of answers do to the state.
ghost use Rattle.std.specs.Prelude.{◌≡◌, if◌then◌else◌, OnOk, OnErr};
ghost use Rattle.storage_machine.specs.Cuts.{is_due};
ghost use Rattle.storage_machine.specs.Host.{has_work};
ghost use Rattle.storage_machine.specs.Slots.{tag_of};
ghost use Rattle.storage_machine.specs.declared.state.Event.TheVariants.{Untold, Told, Due};
ghost use Rattle.storage_machine.specs.declared.state.Owed.TheVariants.{Sectors};
ghost use Rattle.storage_model.specs.declared.faults.Letter.TheVariants.{Host, Cut};
ghost use Rattle.storage_machine.specs.declared.slots.Question.TheVariants.{Collected};
ghost use Rattle.trace_effects.specs.Effects.{over, begun_by, begun, letters_left, letters_used, after_turn, after_issue, after_params, addressed, after_address, words_used, after_poll, uses_word, named_more, after_bus, flash_stop, after_flash, after_irq, answers_left, after_answer, sectors_from, after_read, shown_on, after_sector, after_fault, with_held, waiting_with, after_recover, after_discard};

use crate::lists::{place_of, put_in};
use std::alloc::Global;
use storage_machine::commands::{due, is_calm};
use storage_machine::cuts::is_due;
use storage_machine::host::{has_work, is_silent, recovery_step};
use storage_machine::jobs::{is_in_range, job_of};
use storage_machine::slots::{Change, Question, change_slots, has, put_slot, tag_of};
use storage_machine::{Event, Flags, Owed, Recovery, Slot, Standing, State, Stop, Task};
use storage_model::{BlockList, BusKind, Bytes, Letter, NoMemory};
use trace_rules::answers::data_on;
use trace_rules::lines::is_poll;

/// The line ends its event, but for lines that are owed.
pub fn over(s: &mut State, owed: Owed)
    ensures { s.new ≡ over s.old owed }
{
    s.owed = owed;
    s.event = Event::Untold;
}

fn power_event(s: &State) -> Event
    ensures { result ≡ (if is_due s.now then Due else Told Cut) }
{
    if is_due(s) {
        Event::Due
    } else {
        Event::Told(Letter::Cut)
    }
}

fn host_event(s: &State) -> Event
    ensures { result ≡ (if has_work s.now then Told Host else Untold) }
{
    if has_work(s) {
        Event::Told(Letter::Host)
    } else {
        Event::Untold
    }
}

fn begin_by(s: &mut State, letter: Letter)
    ensures { s.new ≡ begun_by s.old letter }
{
    match letter {
        Letter::Host => {
            if is_silent(&s.recovery) {
                recovery_step(s);
                s.event = Event::Untold;
            } else {
                s.event = host_event(s);
            }
        }
        Letter::Engine => s.event = Event::Told(Letter::Engine),
        Letter::Card => {
            s.event = Event::Told(Letter::Card);
            s.staged = true;
        }
        Letter::Cut => s.event = power_event(s),
    }
}

/// An event of an actor begins.
#[tactic(auto, unfolding(crate::specs::Effects::begun))]
pub fn begin(s: &mut State, letter: Letter)
    ensures { s.new ≡ begun s.old letter }
{
    s.owed = Owed::Nothing;
    begin_by(s, letter);
}

/// Whether letters of the fault text are left.
pub fn letters_left(s: &State) -> bool
    ensures { result ≡ letters_left s.now }
{
    s.letters < s.faults.faults().turns.len()
}

fn letters_used(s: &State) -> usize
    ensures { result ≡ letters_used s.now }
{
    let letters = s.faults.faults().turns.len();
    if s.letters < letters {
        s.letters + 1
    } else {
        letters
    }
}

#[tactic(auto, unfolding(crate::specs::Effects::after_turn))]
pub fn after_turn(s: &mut State, letter: Letter)
    ensures { s.new ≡ after_turn s.old letter }
{
    s.letters = letters_used(s);
    begin(s, letter);
}

#[tactic(auto, unfolding(crate::specs::Effects::after_issue))]
pub fn after_issue(s: &mut State, id: u32, tag: u8) -> Result<(), NoMemory>
    ensures ok { OnOk result (s.new ≡ after_issue s.old id tag) }
    ensures err { OnErr result (s.new ≡ s.old) }
{
    s.order.push(tag)?;
    s.waiting.lower(place_of(id));
    let task = Task {
        id,
        standing: Standing::Rung,
    };
    put_slot(&mut s.slots, tag, Some(task));
    over(s, Owed::Nothing);
    Ok(())
}

#[tactic(auto, unfolding(crate::specs::Effects::after_params))]
pub fn after_params(s: &mut State, n: u32, id: u32)
    ensures { s.new ≡ after_params s.old n id }
{
    s.n = n;
    change_slots(&mut s.slots, Change::Move(id, Standing::Named));
    over(s, Owed::Nothing);
}

fn address(s: &mut State, id: u32, inside: bool)
    ensures { s.new ≡ addressed s.old id inside }
{
    if inside {
        change_slots(&mut s.slots, Change::Move(id, Standing::Sent));
    } else {
        s.stop = Stop::Range(id);
    }
}

#[tactic(auto, unfolding(crate::specs::Effects::after_address))]
pub fn after_address(s: &mut State, n: u32, id: u32)
    ensures { s.new ≡ after_address s.old n id }
{
    let inside = is_in_range(&job_of(&s.plan.jobs, id), s.base.len());
    s.n = n;
    address(s, id, inside);
    over(s, Owed::Nothing);
}

fn words_used(s: &State) -> usize
    ensures { result ≡ words_used s.now }
{
    let words = s.faults.faults().ready.len();
    if s.words < words { s.words + 1 } else { words }
}

#[tactic(auto, unfolding(crate::specs::Effects::after_poll))]
pub fn after_poll(s: &mut State, n: u32, mask: u32)
    ensures { s.new ≡ after_poll s.old n mask }
{
    s.n = n;
    s.words = words_used(s);
    change_slots(&mut s.slots, Change::MakeReady(mask));
    over(s, Owed::Nothing);
}

fn uses_word(s: &State, kind: BusKind) -> bool
    ensures { result ≡ uses_word s.now kind }
{
    match kind {
        BusKind::NoResp => is_poll(due(s)),
        _ => false,
    }
}

fn name_more(named: &mut Bytes, id: Option<u32>)
    ensures { named.new ≡ named_more named.old id }
{
    if let Some(id) = id {
        let place = place_of(id);
        if place < named.len() {
            let times = u32::from(*named.at(place)) + 1;
            named.set(place, times.min(4) as u8);
        }
    }
}

#[tactic(auto, unfolding(crate::specs::Effects::after_bus))]
pub fn after_bus(s: &mut State, n: u32, kind: BusKind, id: Option<u32>)
    ensures { s.new ≡ after_bus s.old n kind id }
{
    if uses_word(s, kind) {
        s.words = words_used(s);
    }
    s.n = n;
    name_more(&mut s.named, id);
    if is_calm(&s.recovery) {
        s.stop = Stop::Bus(id);
    }
    over(s, Owed::Nothing);
}

#[tactic(auto, unfolding(crate::specs::Effects::after_flash))]
pub fn after_flash(s: &mut State, id: Option<u32>)
    ensures { s.new ≡ after_flash s.old id }
{
    if let Some(id) = id {
        s.stop = Stop::Flash(id);
    }
    over(s, Owed::Nothing);
}

#[tactic(auto, unfolding(crate::specs::Effects::after_irq))]
pub fn after_irq(s: &mut State)
    ensures { s.new ≡ after_irq s.old }
{
    s.notice = false;
    change_slots(&mut s.slots, Change::Collect);
    over(s, Owed::Answers);
}

fn answers_left(slots: &[Slot; 32]) -> Owed
    ensures { result ≡ answers_left slots.now }
{
    if has(Question::Collected, slots) {
        Owed::Answers
    } else {
        Owed::Nothing
    }
}

#[tactic(auto, unfolding(crate::specs::Effects::after_answer))]
pub fn after_answer(s: &mut State, id: u32)
    ensures { s.new ≡ after_answer s.old id }
{
    change_slots(&mut s.slots, Change::Answer(id));
    let owed = answers_left(&s.slots);
    over(s, owed);
}

fn sectors_from(slots: &[Slot; 32]) -> Owed
    ensures { result ≡ sectors_from (tag_of Collected slots.now) }
{
    match tag_of(Question::Collected, slots) {
        None => Owed::Nothing,
        Some(tag) => Owed::Sectors { tag, k: 0 },
    }
}

#[tactic(auto, unfolding(crate::specs::Effects::after_read))]
pub fn after_read(s: &mut State, id: u32)
    ensures { s.new ≡ after_read s.old id }
{
    let owed = sectors_from(&s.slots);
    change_slots(&mut s.slots, Change::Answer(id));
    over(s, owed);
}

/// A sector of an answer was shown.
#[tactic(auto, unfolding(crate::specs::Effects::after_sector))]
pub fn after_sector(s: &mut State, alloc: Global)
    ensures { s.new ≡ after_sector s.old }
{
    if let Owed::Sectors { tag, k } = s.owed {
        show_on(s, alloc, tag, k);
    }
}

fn show_on(s: &mut State, alloc: Global, tag: usize, k: usize)
    ensures { s.new ≡ shown_on s.old (Sectors tag k) }
{
    let shown = data_on(s, tag).len();
    if k < shown && k + 1 < shown {
        over(s, Owed::Sectors { tag, k: k + 1 });
    } else {
        put_in(&mut s.data, tag, BlockList::new(alloc));
        let owed = answers_left(&s.slots);
        over(s, owed);
    }
}

#[tactic(auto, unfolding(crate::specs::Effects::after_fault))]
pub fn after_fault(s: &mut State, id: u32)
    ensures { s.new ≡ after_fault s.old id }
{
    change_slots(&mut s.slots, Change::Answer(id));
    over(s, Owed::Recover);
}

fn hold(waiting: &mut Flags, slot: &Slot)
    ensures { waiting.new ≡ with_held waiting.old slot.now }
{
    if let Some(task) = slot {
        waiting.raise(place_of(task.id));
    }
}

#[tactic(auto, unfolding(crate::specs::Effects::waiting_with))]
fn hold_all(waiting: &mut Flags, slots: &[Slot; 32])
    ensures { waiting.new ≡ waiting_with waiting.old slots.now }
{
    for slot in slots {
        hold(waiting, slot);
    }
}

#[tactic(auto, unfolding(crate::specs::Effects::after_recover))]
pub fn after_recover(s: &mut State, alloc: Global)
    ensures { s.new ≡ after_recover s.old }
{
    hold_all(&mut s.waiting, &s.slots);
    change_slots(&mut s.slots, Change::Hold);
    s.order = Bytes::new(alloc);
    s.stop = Stop::Running;
    s.recovery = Recovery::Halted;
    s.notice = false;
    over(s, Owed::Nothing);
}

#[tactic(auto, unfolding(crate::specs::Effects::after_discard))]
pub fn after_discard(s: &mut State, n: u32)
    ensures { s.new ≡ after_discard s.old n }
{
    s.n = n;
    s.recovery = Recovery::Discarded;
    over(s, Owed::Nothing);
}
