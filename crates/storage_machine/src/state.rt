// The state of the storage machine.
use crate::{Flags, Marks, Script, UsedLines};
use storage_model::{BlockList, BusKind, Bytes, Letter, MarkList, Plan, Sequence};

/// How far an issued request has come. A rung task waits for its parameters (CMD44), a named one for its address (CMD45),
/// a sent one for a queue status that says it is ready, a ready one for its execution (CMD46, CMD47). The answer of a
/// collected one is owed; a recovery holds a held one.
#[derive(Clone, Copy)]
pub enum Standing {
    Rung,
    Named,
    Sent,
    Ready,
    Done,
    Collected,
    Held,
}

/// What stands on a tag: the request, counted from 1, and how far it has come.
#[derive(Clone, Copy)]
pub struct Task {
    pub id: u32,
    pub standing: Standing,
}

pub type Slot = Option<Task>;

pub type EpochList = Sequence<usize>;

/// Why the engine stands still: a bus fault, with the request that it named, a flash fault, a task past the end, or one that
/// is not of whole units.
#[derive(Clone, Copy)]
pub enum Stop {
    Running,
    Bus(Option<u32>),
    Flash(u32),
    Range(u32),
    Align(u32),
}

/// How far a recovery has come: the engine is halted, its tasks are cleared, the card's queue is discarded (CMD48), the
/// interrupts are cleared, the engine is resumed.
#[derive(Clone, Copy)]
pub enum Recovery {
    Calm,
    Halted,
    Cleared,
    Discarded,
    Cleaned,
    Resumed,
}

/// Whose event is under way: that of a letter shown, or one of power that a due `cut` line forces.
#[derive(Clone, Copy)]
pub enum Event {
    Untold,
    Told(Letter),
    Due,
}

/// What must come next.
#[derive(Clone, Copy)]
pub enum Owed {
    /// The first line.
    Card,
    Nothing,
    /// Nothing, but a complete phase stands directly before, to whose event a cut may still belong.
    Closed,
    /// The bus line of the phase before, or a cut.
    Bus { n: u32, id: u32, kind: BusKind },
    /// The flash line of the phase before, or a cut.
    Flash { id: u32 },
    /// The answers of collected requests.
    Answers,
    /// Sectors of a read's answer, from `k` on.
    Sectors { tag: usize, k: usize },
    /// `recover`, after an answer that names a fault.
    Recover,
    /// The lines after a cut, `cuts` further cuts among them.
    Dark { cuts: u8 },
    /// What was left of the sectors from `from` on.
    Left { from: u64 },
    /// Nothing follows.
    End,
}

/// The state of the storage machine.
#[derive(Drop)]
pub struct State {
    pub plan: Plan,
    pub faults: Script,
    pub base: BlockList,
    pub pend: Marks,
    /// Of each request, whether it waits to be issued; a held one waits too.
    pub waiting: Flags,
    /// Of each request, how many bus faults named it, up to four.
    pub named: Bytes,
    /// By tag.
    pub slots: [Slot; 32],
    /// The tags of the tasks that the engine has, in order of ringing.
    pub order: Bytes,
    /// By tag, the sectors of a read that is done.
    pub data: Sequence<BlockList>,
    /// The number of the last command.
    pub n: u32,
    /// The barriers since power-on.
    pub bars: u32,
    /// The words of ready polls used, and the letters.
    pub words: usize,
    pub letters: usize,
    /// Of each `cut` line, whether it was used.
    pub cuts: UsedLines,
    /// Whether the phase of the due task is under way.
    pub busy: bool,
    /// The engine events of that phase that printed nothing.
    pub spent: u32,
    pub stop: Stop,
    pub recovery: Recovery,
    /// Whether the task notice is up, and how many completions were counted since.
    pub notice: bool,
    pub count: u8,
    /// Whether a card event came.
    pub staged: bool,
    /// Whether, since there were no marks, a phase came of a flush or of a write that must be kept.
    pub kept: bool,
    pub event: Event,
    pub owed: Owed,
    /// Whether something was to do at the cut.
    pub worked: bool,
    /// Whether nothing in the cache was staged before the cut.
    pub deferred: bool,
    /// The values left so far, and the epochs that allow them.
    pub lefts: MarkList,
    pub epochs: EpochList,
}
