//! The parts of the commands' arguments (JESD84-B51, section 6.10.4).
ghost use Rattle.std.specs.Prelude.{◌≡◌, IsTrue};
ghost use Rattle.cq_words.specs.Table.{is_table, word_with};
ghost use Rattle.cmd_words.specs.Argument.{ends_below_32};

use cq_words::{BitField, FieldValue};

/// CMD13: the address of the card.
pub const RCA: BitField = BitField { low: 16, width: 16 };

/// CMD13: asks for the queue status word.
pub const QUEUE: BitField = BitField { low: 15, width: 1 };

/// CMD44: the write is reliable.
pub const RELIABLE: BitField = BitField { low: 31, width: 1 };

/// CMD44: the task reads.
pub const READ: BitField = BitField { low: 30, width: 1 };

/// CMD44: the write is programmed before it completes.
pub const FORCED: BitField = BitField { low: 24, width: 1 };

/// CMD44: the task has high priority.
pub const HIGH: BitField = BitField { low: 23, width: 1 };

/// CMD44, CMD46, CMD47 and CMD48: the number of the task.
pub const TASK: BitField = BitField { low: 16, width: 5 };

/// CMD44: how many blocks the task has.
pub const BLOCKS: BitField = BitField { low: 0, width: 16 };

/// CMD48: what is discarded.
pub const OPERATION: BitField = BitField { low: 0, width: 4 };

/// The operation that discards every task.
pub const WHOLE_QUEUE: u64 = 1;

/// The operation that discards one task.
pub const ONE_TASK: u64 = 2;

// The argument that has these fields and no other bit.
pub(crate) fn argument_of(table: &[FieldValue]) -> u32
    requires apart { IsTrue (is_table table.now) }
    requires narrow { IsTrue (ends_below_32 table.now) }
    ensures { result ≡ word_with table.now }
{
    FieldValue::word_of(table) as u32
}
