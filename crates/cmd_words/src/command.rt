ghost use Rattle.std.specs.Prelude.{◌≡◌, ◌<◌, ◌^◌, ◌↔◌, Ok, Err, IsErr, IfOk};
ghost use Rattle.cmd_words.specs.Command.{index_of, argument_of, managed, decoded, IsIllegal, IsExact, IsInRange};

use crate::argument::{
    BLOCKS, FORCED, HIGH, ONE_TASK, OPERATION, QUEUE, RCA, READ, RELIABLE, TASK, WHOLE_QUEUE,
    argument_of,
};
use crate::index::{
    CMDQ_TASK_MGMT, EXECUTE_READ_TASK, EXECUTE_WRITE_TASK, QUEUED_TASK_ADDRESS, QUEUED_TASK_PARAMS,
    SEND_STATUS, SWITCH,
};

/// A task as CMD44 names it. Its start sector comes with CMD45.
#[derive(Clone, Copy, Debug, PartialEq, Eq)]
pub struct Task {
    /// The number of the task, below 32.
    pub task: u8,
    /// Whether it reads; else it writes.
    pub read: bool,
    pub blocks: u16,
    pub forced: bool,
    pub reliable: bool,
    pub high: bool,
}

/// A command with its argument.
#[derive(Clone, Copy, Debug, PartialEq, Eq)]
pub enum Command {
    /// CMD6: writes the extended CSD.
    Switch { arg: u32 },
    /// CMD13: asks for the device status, or for the queue status word.
    Status { queue: bool, rca: u16 },
    /// CMD44: names a task.
    Params(Task),
    /// CMD45: gives its start sector to the task that CMD44 named.
    Address(u32),
    /// CMD46 or CMD47: begins the data phase of a queued task.
    Execute { read: bool, task: u8 },
    /// CMD48: discards the whole queue, or one task.
    Manage { whole: bool, task: u8 },
    /// Words that are no command of this card.
    Other { index: u8, arg: u32 },
}

/// The words are no command of this card.
#[derive(Clone, Copy, Debug, PartialEq, Eq)]
pub struct Illegal;

impl Command {
    /// The index and the argument. A task's number is cut to its lowest 5 bits, and is 0 where the whole queue is discarded.
    pub fn encode(&self) -> (u8, u32)
        ensures index { result.0 ≡ index_of self.now }
        ensures argument { result.1 ≡ argument_of self.now }
        ensures exact { IsExact self.now → decoded result.0 result.1 ≡ Ok self.now }
    {
        (self.index(), self.argument())
    }

    // The index of the command.
    fn index(&self) -> u8
        ensures { result ≡ index_of self.now }
    {
        match self {
            Command::Switch { .. } => SWITCH,
            Command::Status { .. } => SEND_STATUS,
            Command::Params(_) => QUEUED_TASK_PARAMS,
            Command::Address(_) => QUEUED_TASK_ADDRESS,
            Command::Execute { read: true, .. } => EXECUTE_READ_TASK,
            Command::Execute { read: false, .. } => EXECUTE_WRITE_TASK,
            Command::Manage { .. } => CMDQ_TASK_MGMT,
            Command::Other { index, .. } => *index,
        }
    }

    // The argument of the command.
    fn argument(&self) -> u32
        ensures value { result ≡ argument_of self.now }
        ensures in_range { IsInRange self.now }
    {
        match self {
            Command::Switch { arg } | Command::Other { arg, .. } => *arg,
            Command::Status { queue, rca } => {
                argument_of(&[RCA.of(u64::from(*rca)), QUEUE.flag(*queue)])
            }
            Command::Params(task) => task.argument(),
            Command::Address(start) => *start,
            Command::Execute { task, .. } => argument_of(&[TASK.of(u64::from(*task))]),
            Command::Manage { whole: true, .. } => argument_of(&[OPERATION.of(WHOLE_QUEUE)]),
            Command::Manage { whole: false, task } => {
                argument_of(&[TASK.of(u64::from(*task)), OPERATION.of(ONE_TASK)])
            }
        }
    }

    /// The command of an index and an argument. Bits without a meaning here are not looked at, the context and the tag
    /// request of CMD44 among them; where the whole queue is discarded, the number of the task is read as 0.
    #[tactic(auto, unfolding(crate::specs::Command::decoded))]
    pub fn decode(index: u8, arg: u32) -> Result<Command, Illegal>
        ensures value { result ≡ decoded index arg }
        ensures illegal { IsErr result ↔ IsIllegal index arg }
        ensures exact { IfOk result IsExact }
    {
        match index {
            SWITCH => Ok(Command::Switch { arg }),
            SEND_STATUS => Ok(Command::Status {
                queue: QUEUE.is_set(u64::from(arg)),
                rca: RCA.get(u64::from(arg)) as u16,
            }),
            QUEUED_TASK_PARAMS => Ok(Command::Params(Task::named_by(arg))),
            QUEUED_TASK_ADDRESS => Ok(Command::Address(arg)),
            EXECUTE_READ_TASK => Ok(Command::Execute {
                read: true,
                task: TASK.get(u64::from(arg)) as u8,
            }),
            EXECUTE_WRITE_TASK => Ok(Command::Execute {
                read: false,
                task: TASK.get(u64::from(arg)) as u8,
            }),
            CMDQ_TASK_MGMT => managed(arg),
            _ => Err(Illegal),
        }
    }
}

impl Task {
    ghost use Rattle.cq_words.specs.Table.{word_with};
    ghost use Rattle.cmd_words.specs.Command.{task_table, task_in};

    // The argument of CMD44.
    fn argument(&self) -> u32
        ensures value { result ≡ word_with (task_table self.now) }
        ensures in_range { self.now.blocks < 2 ^ 16 }
    {
        argument_of(&[
            RELIABLE.flag(self.reliable),
            READ.flag(self.read),
            FORCED.flag(self.forced),
            HIGH.flag(self.high),
            TASK.of(u64::from(self.task)),
            BLOCKS.of(u64::from(self.blocks)),
        ])
    }

    // The task that the argument of CMD44 names.
    fn named_by(arg: u32) -> Task
        ensures value { result ≡ task_in arg }
        ensures exact { result.task < 32 }
    {
        Task {
            task: TASK.get(u64::from(arg)) as u8,
            read: READ.is_set(u64::from(arg)),
            blocks: BLOCKS.get(u64::from(arg)) as u16,
            forced: FORCED.is_set(u64::from(arg)),
            reliable: RELIABLE.is_set(u64::from(arg)),
            high: HIGH.is_set(u64::from(arg)),
        }
    }
}

// What the argument of CMD48 has discarded.
fn managed(arg: u32) -> Result<Command, Illegal>
    ensures value { result ≡ managed arg }
    ensures exact { IfOk result IsExact }
{
    match OPERATION.get(u64::from(arg)) {
        WHOLE_QUEUE => Ok(Command::Manage {
            whole: true,
            task: 0,
        }),
        ONE_TASK => Ok(Command::Manage {
            whole: false,
            task: TASK.get(u64::from(arg)) as u8,
        }),
        _ => Err(Illegal),
    }
}
