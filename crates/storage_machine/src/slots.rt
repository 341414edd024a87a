// The slots, and what is asked of them and changed on them.
ghost use Rattle.std.specs.Prelude.{◌≡◌, ◌<◌, Some, slice_set};
ghost use Rattle.storage_machine.specs.Slots.{asks, asks_of, changed, changed_slots, first, has, id_of, mask_of, no_tasks, slot_at, tag_of, tag_with};

use crate::{Slot, Standing, Task};

/// What is asked of a slot. A collected task's request is answered: it is issued no more, and its tag is vacant.
#[derive(Clone, Copy)]
pub enum Question {
    Rung,
    Named,
    Sent,
    Ready,
    Done,
    Collected,
    Issued,
    Vacant,
}

/// What may change on all slots: the sent tasks of a queue status become ready, the done ones are collected, all are held,
/// or the task of one request moves on or is answered.
#[derive(Clone, Copy)]
pub enum Change {
    MakeReady(u32),
    Collect,
    Hold,
    Move(u32, Standing),
    Answer(u32),
}

pub fn asks(question: Question, slot: &Slot) -> bool
    ensures { result ≡ asks question slot.now }
{
    match slot {
        None => matches!(question, Question::Vacant),
        Some(task) => asks_of(question, task.standing),
    }
}

fn asks_of(question: Question, standing: Standing) -> bool
    ensures { result ≡ asks_of question standing }
{
    match question {
        Question::Rung => matches!(standing, Standing::Rung),
        Question::Named => matches!(standing, Standing::Named),
        Question::Sent => matches!(standing, Standing::Sent),
        Question::Ready => matches!(standing, Standing::Ready),
        Question::Done => matches!(standing, Standing::Done),
        Question::Collected => matches!(standing, Standing::Collected),
        Question::Issued => !matches!(standing, Standing::Collected),
        Question::Vacant => matches!(standing, Standing::Collected),
    }
}

pub fn slot_at(slots: &[Slot; 32], tag: usize) -> Slot
    ensures { result ≡ slot_at slots.now tag }
{
    if tag < 32 { slots[tag] } else { None }
}

pub fn put_slot(slots: &mut [Slot; 32], tag: u8, slot: Slot)
    ensures { slots.new ≡ slice_set slots.old tag slot }
{
    if tag < 32 {
        slots[tag as usize] = slot;
    }
}

/// The request on a slot, or 0.
pub fn id_of(slot: &Slot) -> u32
    ensures { result ≡ id_of slot.now }
{
    match slot {
        None => 0,
        Some(task) => task.id,
    }
}

pub fn has(question: Question, slots: &[Slot; 32]) -> bool
    ensures { result ≡ has question slots.now }
{
    slots.iter().any(|slot| asks(question, slot))
}

/// The lowest tag.
pub fn tag_of(question: Question, slots: &[Slot; 32]) -> Option<usize>
    ensures { result ≡ tag_of question slots.now }
{
    slots.iter().position(|slot| asks(question, slot))
}

/// The tag of a request.
pub fn tag_with(id: u32, slots: &[Slot; 32]) -> Option<usize>
    ensures { result ≡ tag_with id slots.now }
{
    slots.iter().position(|slot| id_of(slot) == id)
}

/// The first tag in an order.
pub fn first(question: Question, slots: &[Slot; 32], order: &[u8]) -> Option<u8>
    ensures { result ≡ first question slots.now order.now }
{
    order
        .iter()
        .copied()
        .find(|tag| asks(question, &slot_at(slots, usize::from(*tag))))
}

/// The bits of the tags.
#[tactic(auto, using(crate::proofs::Masks::mask_fits), unfolding(crate::specs::Slots::mask_of))]
pub fn mask_of(question: Question, slots: &[Slot; 32]) -> u32
    ensures { result ≡ mask_of question slots.now }
{
    let mut mask = 0;
    for tag in 0..32u8 {
        if asks(question, &slots[tag as usize]) {
            mask += 1u32 << tag;
        }
    }
    mask
}

fn changed(change: Change, tag: u8, slot: &Slot) -> Slot
    requires { tag < 32 }
    ensures { result ≡ changed change tag slot.now }
{
    match slot {
        None => None,
        Some(task) => changed_task(change, tag, *task),
    }
}

fn changed_task(change: Change, tag: u8, task: Task) -> Slot
    requires { tag < 32 }
    ensures { result ≡ changed change tag (Some task) }
{
    match change {
        Change::MakeReady(word) => {
            if asks_of(Question::Sent, task.standing) && (word >> tag) % 2 == 1 {
                moved(task, Standing::Ready)
            } else {
                Some(task)
            }
        }
        Change::Collect => {
            if asks_of(Question::Done, task.standing) {
                moved(task, Standing::Collected)
            } else {
                Some(task)
            }
        }
        Change::Hold => moved(task, Standing::Held),
        Change::Move(id, standing) => {
            if task.id == id {
                moved(task, standing)
            } else {
                Some(task)
            }
        }
        Change::Answer(id) => { if task.id == id { None } else { Some(task) } }
    }
}

fn moved(task: Task, standing: Standing) -> Slot
    ensures { result ≡ Some (record { id = task.id; standing = standing }) }
{
    Some(Task {
        id: task.id,
        standing,
    })
}

#[tactic(auto, unfolding(crate::specs::Slots::changed_slots))]
pub fn change_slots(slots: &mut [Slot; 32], change: Change)
    ensures { slots.new ≡ changed_slots change slots.old }
{
    for tag in 0..32u8 {
        slots[tag as usize] = changed(change, tag, &slots[tag as usize]);
    }
}

#[tactic(auto, unfolding(crate::specs::Slots::no_tasks))]
pub fn no_tasks() -> [Slot; 32]
    ensures { result ≡ no_tasks }
{
    [None; 32]
}
