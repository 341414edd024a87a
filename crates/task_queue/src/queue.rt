ghost use Rattle.std.specs.Prelude.{◌≡◌, ◌≤◌, ◌==◌, ◌↔◌, ℕ, Some, None, IfOk, IfSome, OnOk, OnErr, length, replicate};
ghost use Rattle.std.specs.Int.{bit_at};
ghost use Rattle.task_queue.specs.Queue.{slot, empty, params_answer, address_answer, addressed, take_answer, taken, discarded, ready_word, chosen, IsReady, is_ready, marked, ready_bits, with_mark};

use arrayvec::ArrayVec;
use cmd_words::Task;
use std::marker::Model;

/// A task in the queue, with its start sector.
#[derive(Clone, Copy, Debug, PartialEq, Eq)]
pub struct Queued {
    pub task: Task,
    pub start: u32,
}

/// A queued task in its place, and whether it is ready.
#[derive(Clone, Copy, Debug, PartialEq, Eq)]
pub struct Place {
    pub queued: Queued,
    pub ready: bool,
}

/// Why a call of the queue was refused.
#[derive(Clone, Copy, Debug, PartialEq, Eq)]
pub enum QueueRefusal {
    /// The number of the task is not below the depth of the queue.
    PastDepth,
    /// A task of this number is queued.
    InUse,
    /// The task has no blocks.
    NoBlocks,
    /// No task was named since the last start sector was given or tasks were discarded.
    NoParams,
    /// The task is not queued and ready.
    NotReady,
}

/// The queue: a place for each task below the depth, and the task that CMD44 named and CMD45 has not.
#[derive(Debug, Drop)]
pub struct TaskQueue {
    slots: ArrayVec<Option<Place>, 31>,
    waiting: Option<Task>,
}

impl Model for TaskQueue {
    ghost use Rattle.task_queue.specs.Places.{Queue, IsKept};

    ghost Value = { Queue };

    ghost view = { λ q. record { slots = q.slots.items; waiting = q.waiting } };

    ghost invariant = { λ q. IsKept q.slots.items q.waiting };
}

impl TaskQueue {
    /// An empty queue.
    pub fn new(depth: u8) -> TaskQueue
        requires { (1 ≤ depth) × (depth ≤ 31) }
        ensures { result ≡ empty depth }
    {
        TaskQueue {
            slots: no_tasks(usize::from(depth)),
            waiting: None,
        }
    }

    /// CMD44: names a task, which waits for its start sector. It takes the place of one that waits already.
    pub fn params(&mut self, task: Task) -> Result<(), QueueRefusal>
        ensures answer { result ≡ params_answer self.old task }
        ensures ok { OnOk result (self.new ≡ record self.old { waiting = Some task }) }
        ensures err { OnErr result (self.new ≡ self.old) }
    {
        let place = usize::from(task.task);
        if place >= self.slots.len() {
            return Err(QueueRefusal::PastDepth);
        }
        if self.slots.as_slice()[place].is_some() {
            return Err(QueueRefusal::InUse);
        }
        if task.blocks == 0 {
            return Err(QueueRefusal::NoBlocks);
        }
        self.waiting = Some(task);
        Ok(())
    }

    /// CMD45: queues the task that waits, and answers its number. It is not ready.
    pub fn address(&mut self, start: u32) -> Result<u8, QueueRefusal>
        ensures answer { result ≡ address_answer self.old }
        ensures after { self.new ≡ addressed self.old start }
        ensures unready { IfOk result (λ task. ¬ IsReady self.new task) }
    {
        let Some(task) = self.waiting else {
            return Err(QueueRefusal::NoParams);
        };
        self.waiting = None;
        self.slots.as_mut_slice()[usize::from(task.task)] = Some(Place {
            queued: Queued { task, start },
            ready: false,
        });
        Ok(task.task)
    }

    /// Makes the queued tasks of `mask` ready, and no others: bit n is for task n.
    pub fn make_ready(&mut self, mask: u32)
        ensures { self.new ≡ chosen self.old mask }
    {
        self.slots = marked(self.slots.as_slice(), mask);
    }

    /// The queue status word: bit n is set where task n is queued and ready.
    pub fn status_word(&self) -> u32
        ensures value { result ≡ ready_word self.now }
        ensures bits { (task : ℕ) → (bit_at result task ≡ 1) ↔ IsReady self.now task }
    {
        ready_bits(self.slots.as_slice())
    }

    /// The task of a number, if it is queued.
    pub fn queued(&self, task: u8) -> Option<Queued>
        ensures value { result ≡ slot self.now task }
        ensures number { IfSome result (λ queued. queued.task.task ≡ task) }
    {
        let place = (*self.slots.as_slice().get(usize::from(task))?)?;
        Some(place.queued)
    }

    /// CMD46 and CMD47: takes a ready task out of the queue.
    pub fn take(&mut self, task: u8) -> Result<Queued, QueueRefusal>
        ensures answer { result ≡ take_answer self.old task }
        ensures number { IfOk result (λ queued. queued.task.task ≡ task) }
        ensures ok { OnOk result (self.new ≡ taken self.old task) }
        ensures err { OnErr result (self.new ≡ self.old) }
    {
        let Some(slot) = self.slots.as_slice().get(usize::from(task)) else {
            return Err(QueueRefusal::PastDepth);
        };
        let Some(place) = *slot else {
            return Err(QueueRefusal::NotReady);
        };
        if !place.ready {
            return Err(QueueRefusal::NotReady);
        }
        self.clear(task);
        Ok(place.queued)
    }

    // Takes a task out of its place, if it is queued.
    fn clear(&mut self, task: u8)
        ensures { self.new ≡ taken self.old task }
    {
        let place = usize::from(task);
        if place < self.slots.len() {
            self.slots.as_mut_slice()[place] = None;
        }
    }

    /// CMD48: takes one task out of the queue, or all of them, and forgets the task that waits, whichever it is.
    pub fn discard(&mut self, which: Option<u8>)
        ensures { self.new ≡ discarded self.old which }
    {
        self.waiting = None;
        match which {
            None => self.slots = no_tasks(self.slots.len()),
            Some(task) => self.clear(task),
        }
    }
}

// A place for each of so many tasks, all empty.
fn no_tasks(depth: usize) -> ArrayVec<Option<Place>, 31>
    requires { depth ≤ 31 }
    ensures { result.items ≡ replicate depth None }
{
    let mut slots = ArrayVec::new();
    for _ in 0..depth {
        slots.push(None);
    }
    slots
}

// The places with the queued tasks of the mask ready, and no others.
fn marked(slots: &[Option<Place>], mask: u32) -> ArrayVec<Option<Place>, 31>
    requires { length slots.now ≤ 31 }
    ensures { result.items ≡ marked mask slots.now }
{
    let mut places = ArrayVec::new();
    for (task, slot) in slots.iter().enumerate() {
        places.push(with_mark(*slot, has_bit(mask, task)));
    }
    places
}

fn has_bit(mask: u32, task: usize) -> bool
    requires { task ≤ 31 }
    ensures { result ≡ (bit_at mask task == 1) }
{
    mask >> task & 1 == 1
}

fn with_mark(slot: Option<Place>, ready: bool) -> Option<Place>
    ensures { result ≡ with_mark ready slot }
{
    match slot {
        Some(place) => Some(Place { ready, ..place }),
        None => None,
    }
}

// The word with a bit for each task that is ready.
fn ready_bits(slots: &[Option<Place>]) -> u32
    requires { length slots.now ≤ 31 }
    ensures { result ≡ ready_bits slots.now }
{
    let mut word = 0;
    for (task, slot) in slots.iter().enumerate() {
        word += u32::from(is_ready(slot)) << task;
    }
    word
}

fn is_ready(slot: &Option<Place>) -> bool
    ensures { result ≡ is_ready slot.now }
{
    match slot {
        Some(place) => place.ready,
        None => false,
    }
}
