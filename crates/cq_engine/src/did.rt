use bus_link::Cause;
use cmd_words::Command;
use cq_task::DropCause;

/// What an event of the engine did.
#[derive(Clone, Copy, Debug)]
pub enum Did {
    /// Nothing: the engine is disabled, halted or stopped, or nothing was due but the timer.
    Idle,
    /// A command of a data task, or a poll, was answered.
    Sent(Command),
    /// A direct command was answered, and its task is complete.
    Direct { slot: u8 },
    /// A block of a data phase moved.
    Moved { slot: u8 },
    /// A data phase is over, and its task complete.
    Finished { slot: u8 },
    /// A slot asks for no good task, and is idle.
    Dropped { slot: u8, why: DropCause },
    /// The engine stopped.
    Stopped(Cause),
}
