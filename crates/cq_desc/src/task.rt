ghost use Rattle.std.specs.Prelude.{◌≡◌, ◌∷◌, ◌<◌, IfOk, Ok};
ghost use Rattle.cq_words.specs.Table.{Fits, Holds, word_with};
ghost use Rattle.cq_desc.specs.Task.{task_of, task_read, task_table, written_task};

use crate::DescFault;
use crate::layout::{
    ACT, ACT_TASK, BLOCK_ADDRESS, BLOCK_COUNT, CONTEXT, DIRECTION, END, FORCED_PROGRAMMING, INT,
    PRIORITY, QUEUE_BARRIER, RELIABLE_WRITE, TAG_REQUEST, VALID,
};
use cq_words::FieldValue;

/// A task descriptor: a read or write of blocks.
#[derive(Clone, Copy, Debug, PartialEq, Eq)]
pub struct TaskDesc {
    /// The completion interrupts at once.
    pub int: bool,
    /// A forced programming: the blocks are on flash when the task completes.
    pub forced: bool,
    /// The context, below 16.
    pub context: u8,
    /// A tag request.
    pub tag: bool,
    /// A read; else a write.
    pub read: bool,
    /// A task of high priority.
    pub high: bool,
    /// A queue barrier: no task passes it.
    pub barrier: bool,
    /// A reliable write.
    pub reliable: bool,
    /// The number of blocks of 512 bytes.
    pub blocks: u16,
    /// The start sector.
    pub start: u32,
}

/// The task descriptor that stands in the low word of either form.
pub fn read_task(low: u64) -> Result<TaskDesc, DescFault>
    ensures value { result ≡ task_read low }
    ensures table { IfOk result (λ desc. Holds low (task_table desc)) }
{
    if !VALID.is_set(low) {
        return Err(DescFault::NotValid);
    }
    if ACT.get(low) != ACT_TASK {
        return Err(DescFault::BadAct);
    }
    Ok(task_in(low))
}

fn task_in(low: u64) -> TaskDesc
    ensures { result ≡ task_of low }
{
    TaskDesc {
        int: INT.is_set(low),
        forced: FORCED_PROGRAMMING.is_set(low),
        context: CONTEXT.get(low) as u8,
        tag: TAG_REQUEST.is_set(low),
        read: DIRECTION.is_set(low),
        high: PRIORITY.is_set(low),
        barrier: QUEUE_BARRIER.is_set(low),
        reliable: RELIABLE_WRITE.is_set(low),
        blocks: BLOCK_COUNT.get(low) as u16,
        start: BLOCK_ADDRESS.get(low) as u32,
    }
}

/// The low word of a task descriptor, as `cqhci_prep_task_desc` writes it. A context too great for its field is cut.
pub fn write_task(desc: &TaskDesc) -> u64
    ensures value { result ≡ word_with (written_task desc.now) }
    ensures read_again { desc.now.context < 16 → task_read result ≡ Ok desc.now }
{
    FieldValue::word_of(&rows_of_task(desc))
}

fn rows_of_task(desc: &TaskDesc) -> [FieldValue; 13]
    ensures rows { result ≡ written_task desc.now }
    ensures fits { desc.now.context < 16 → Fits (written_task desc.now) }
{
    [
        END.of(1),
        VALID.of(1),
        ACT.of(ACT_TASK),
        INT.flag(desc.int),
        FORCED_PROGRAMMING.flag(desc.forced),
        CONTEXT.of(u64::from(desc.context)),
        TAG_REQUEST.flag(desc.tag),
        DIRECTION.flag(desc.read),
        PRIORITY.flag(desc.high),
        QUEUE_BARRIER.flag(desc.barrier),
        RELIABLE_WRITE.flag(desc.reliable),
        BLOCK_COUNT.of(u64::from(desc.blocks)),
        BLOCK_ADDRESS.of(u64::from(desc.start)),
    ]
}
