ghost use Rattle.std.specs.Prelude.{◌≡◌, ℕ, ◌==◌, ◌&&◌, not, ◌<◌, ◌≤◌, ◌^◌, true, length, [], IsTrue, IfSome, if◌then◌else◌, slice_get};
ghost use Rattle.std.specs.Int.{bit_at, from_bool};
ghost use Rattle.std.specs.List.{All, find};
ghost use Rattle.std.specs.Option.{option_map};
ghost use Rattle.cq_regs.specs.declared.slots.Progress.TheVariants.{Idle, Rung};
ghost use Rattle.cq_regs.specs.Slots.{advanced, has_bit, is_rung, is_sent, made_ready, moved_at, newly_rung, next, progress_of, readied, readied_by, rung, sent_slots, slots_word, waits, with_first, without, without_slots, AreNotRung, IsRing, Moves};

use arrayvec::ArrayVec;
use std::marker::Model;

/// How far the task of a slot has come.
#[derive(Clone, Copy, Debug, PartialEq, Eq, Default)]
pub enum Progress {
    /// The slot is not rung, or its task is complete, dropped or cleared.
    #[default]
    Idle,
    /// The doorbell was rung.
    Rung,
    /// CMD44 named the task.
    Named,
    /// CMD45 gave its start sector: it is in the queue of the card.
    Sent,
    /// The queue status word had its bit.
    Ready,
    /// CMD46 or CMD47 is sent, and its data phase is not over.
    Active,
}

/// A slot that is rung, and how far its task has come.
#[derive(Clone, Copy, Debug, PartialEq, Eq, Default)]
pub struct Ringed {
    pub slot: u8,
    pub progress: Progress,
}

/// The slots that are rung, in order of ringing.
#[derive(Debug, Drop)]
pub(crate) struct Ring {
    slots: ArrayVec<Ringed, 32>,
}

impl Model for Ring {
    ghost use Rattle.std.specs.Prelude.{List};
    ghost use Rattle.cq_regs.specs.declared.slots.Ringed.{Ringed};
    ghost use Rattle.cq_regs.specs.Slots.{IsRing};

    ghost Value = { List Ringed };

    ghost view = { λ ring. ring.slots.items };

    ghost invariant = { λ ring. IsRing ring.slots.items };
}

impl Progress {
    // Whether CMD45 was answered, and the task is not complete.
    pub(crate) fn is_sent(self) -> bool
        ensures { result ≡ is_sent self }
    {
        matches!(self, Progress::Sent | Progress::Ready | Progress::Active)
    }

    // What the slot comes to once its next command was answered.
    pub(crate) fn next(self) -> Progress
        ensures { result ≡ next self }
    {
        match self {
            Progress::Rung => Progress::Named,
            Progress::Named => Progress::Sent,
            Progress::Ready => Progress::Active,
            Progress::Idle | Progress::Sent | Progress::Active => self,
        }
    }

    // Ready, where the task was sent.
    pub(crate) fn readied(self) -> Progress
        ensures { result ≡ readied self }
    {
        match self {
            Progress::Sent => Progress::Ready,
            _ => self,
        }
    }
}

impl Ringed {
    // A slot that is rung, of which no command is sent.
    fn rung(slot: u8) -> Ringed
        ensures { result ≡ newly_rung slot }
    {
        Ringed {
            slot,
            progress: Progress::Rung,
        }
    }

    // Moved on, if it is the entry of the slot.
    fn moved_at(self, slot: u8) -> Ringed
        ensures { result ≡ moved_at slot self }
    {
        if self.slot == slot {
            Ringed {
                progress: self.progress.next(),
                ..self
            }
        } else {
            self
        }
    }

    // Readied, if the word has the bit of its slot.
    fn readied_by(self, word: u32) -> Ringed
        ensures { result ≡ readied_by word self }
    {
        if is_set(word, self.slot) {
            Ringed {
                progress: self.progress.readied(),
                ..self
            }
        } else {
            self
        }
    }
}

impl Ring {
    /// No slot.
    pub(crate) fn new() -> Ring
        ensures { result ≡ [] }
    {
        Ring {
            slots: ArrayVec::new(),
        }
    }

    /// How far the task of a slot has come.
    pub(crate) fn progress(&self, slot: u8) -> Progress
        ensures { result ≡ progress_of self.now slot }
    {
        match find_slot(self.slots.as_slice(), slot) {
            Some(r) => r.progress,
            None => Progress::Idle,
        }
    }

    /// The slot that was rung as the k-th of those that are rung, 0 the first.
    pub(crate) fn nth(&self, k: u8) -> Option<u8>
        ensures value { result ≡ option_map (λ r. r.slot) (slice_get self.now k) }
        ensures below { IfSome result (λ slot. slot < 32) }
        ensures started { IfSome result (λ slot. is_rung (progress_of self.now slot) ≡ true) }
        ensures ring { IsRing self.now }
        ensures most { length self.now ≤ 32 }
    {
        Some(self.slots.as_slice().get(usize::from(k))?.slot)
    }

    /// The word with a bit for each slot.
    pub(crate) fn word(&self) -> u32
        ensures value { result ≡ slots_word self.now }
        ensures bits { (slot : ℕ) → bit_at result slot ≡ from_bool (is_rung (progress_of self.now slot)) }
    {
        slots_word(self.slots.as_slice())
    }

    /// The word with a bit for each slot that is sent.
    pub(crate) fn sent_word(&self) -> u32
        ensures value { result ≡ slots_word (sent_slots self.now) }
        ensures bits { (slot : ℕ) → bit_at result slot ≡ from_bool (is_sent (progress_of self.now slot)) }
    {
        sent_word(self.slots.as_slice())
    }

    /// Rings the slots of a word that are not rung, in slot order.
    pub(crate) fn ring(&mut self, doorbells: u32)
        ensures after { self.new ≡ rung self.old doorbells }
        ensures slots { Moves self.old self.new (λ slot progress. if has_bit doorbells slot && not (is_rung progress) then Rung else progress) }
    {
        let anew = doorbells & !self.word();
        ring_slots(&mut self.slots, anew);
    }

    /// Moves one slot on.
    pub(crate) fn advance(&mut self, slot: u8)
        ensures after { self.new ≡ advanced self.old slot }
        ensures slots { Moves self.old self.new (λ other progress. if other == slot then next progress else progress) }
    {
        advance(self.slots.as_mut_slice(), slot);
    }

    /// Makes the sent slots of a word ready.
    pub(crate) fn make_ready(&mut self, word: u32)
        ensures after { self.new ≡ made_ready self.old word }
        ensures slots { Moves self.old self.new (λ other progress. if has_bit word other then readied progress else progress) }
    {
        make_ready(self.slots.as_mut_slice(), word);
    }

    /// Takes out one slot.
    pub(crate) fn remove(&mut self, slot: u8)
        ensures after { self.new ≡ without self.old slot }
        ensures slots { Moves self.old self.new (λ other progress. if other == slot then Idle else progress) }
    {
        self.slots.retain(|r| r.slot != slot);
    }

    /// Takes out the slots of a word.
    pub(crate) fn remove_all(&mut self, word: u32)
        ensures { self.new ≡ without_slots self.old word }
    {
        self.slots.retain(|r| !is_set(word, r.slot));
    }
}

// Whether the bit of a slot is set in a word.
pub(crate) fn is_set(word: u32, slot: u8) -> bool
    ensures { result ≡ has_bit word slot }
{
    if slot < 32 {
        word >> slot & 1 == 1
    } else {
        false
    }
}

fn find_slot(slots: &[Ringed], slot: u8) -> Option<Ringed>
    ensures { result ≡ find (λ r. r.slot == slot) slots.now }
{
    slots.iter().copied().find(|r| r.slot == slot)
}

// The word with the bit of a slot.
pub(crate) fn slot_bit(slot: u8) -> u32
    requires { slot < 32 }
    ensures { result ≡ 2 ^ slot }
{
    1 << slot
}

fn ring_slots(ring: &mut ArrayVec<Ringed, 32>, anew: u32)
    requires ring { IsRing ring.old.items }
    requires apart { AreNotRung ring.old.items anew }
    ensures { ring.new.items ≡ with_first ring.old.items anew 32 }
{
    for slot in 0..32u8 {
        if is_set(anew, slot) {
            ring.push(Ringed::rung(slot));
        }
    }
}

fn slots_word(slots: &[Ringed]) -> u32
    requires { All (λ r. r.slot < 32) slots.now }
    ensures { result ≡ slots_word slots.now }
{
    let mut word = 0;
    for r in slots {
        word |= slot_bit(r.slot);
    }
    word
}

fn sent_word(slots: &[Ringed]) -> u32
    requires { All (λ r. r.slot < 32) slots.now }
    ensures { result ≡ slots_word (sent_slots slots.now) }
{
    let mut word = 0;
    for r in slots {
        if r.progress.is_sent() {
            word |= slot_bit(r.slot);
        }
    }
    word
}

fn advance(slots: &mut [Ringed], slot: u8)
    ensures { slots.new ≡ advanced slots.old slot }
{
    for r in slots.iter_mut() {
        *r = r.moved_at(slot);
    }
}

fn make_ready(slots: &mut [Ringed], word: u32)
    ensures { slots.new ≡ made_ready slots.old word }
{
    for r in slots.iter_mut() {
        *r = r.readied_by(word);
    }
}
