/// What the engine does next: one of the rules of the host interface.
#[derive(Clone, Copy, Debug, PartialEq, Eq)]
pub enum Due {
    /// Nothing: it is disabled, halted or stopped.
    Rest,
    /// A block of a data phase moves, 0 the first.
    Block { slot: u8, block: u16 },
    /// A data phase is closed: all its blocks moved.
    Close { slot: u8 },
    /// CMD45 gives the start sector of a task that CMD44 named.
    Address { slot: u8 },
    /// A rung slot is read: a direct command, or CMD44 names its task.
    Serve { slot: u8 },
    /// CMD46 or CMD47 executes a ready task.
    Execute { slot: u8 },
    /// CMD13 asks which tasks are ready.
    Poll,
    /// The timer of the interrupt coalescing ticks.
    Tick,
}
