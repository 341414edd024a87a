// Phases: of a queued task, whose blocks move one by one, or of a direct command.
ghost use Rattle.std.specs.Prelude.{◌≡◌};

use cmd_words::Task;

/// The number that direct commands have as tasks, the slot of direct commands (DCMD_SLOT in Linux).
pub const DIRECT_TASK: u8 = 31;

/// A phase that was begun: the number of its task, how many blocks moved, and whether its write was kept. A direct command
/// counts 1 where it acted.
#[derive(Clone, Copy, Debug, PartialEq, Eq)]
pub struct Phase {
    pub task: u8,
    pub count: u16,
    pub kept: bool,
}

/// The data phase of a task that CMD46 or CMD47 took out of the queue, and how many of its blocks moved.
#[derive(Clone, Copy, Debug, PartialEq, Eq)]
pub struct DataPhase {
    pub task: Task,
    pub start: u32,
    pub moved: u16,
}
