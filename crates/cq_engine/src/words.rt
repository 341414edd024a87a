ghost use Rattle.std.specs.Prelude.{◌≡◌, ◌==◌, ◌<◌, IsTrue, not};
ghost use Rattle.std.specs.Int.RustNames.{bit_and};
ghost use Rattle.cq_words.specs.Table.{is_table, word_with};
ghost use Rattle.bus_link.specs.Link.{is_poll};
ghost use Rattle.cmd_words.specs.Argument.{ends_below_32};
ghost use Rattle.cq_engine.specs.Words.{command_error, data_error, direct_of, execute_of, has_error, is_masked, params_of, poll_of};

use bitflags::Flags;
use cmd_words::{Command, Status, Task};
use cq_desc::{DirectDesc, TaskDesc};
use cq_regs::{Register, Regs};
use cq_words::{BitField, FieldValue};

/// `CQHCI_TERRI_C_INDEX`: the index of the command that was not answered well.
pub const COMMAND_INDEX: BitField = BitField { low: 0, width: 6 };

/// `CQHCI_TERRI_C_TASK`: the slot of that command.
pub const COMMAND_TASK: BitField = BitField { low: 8, width: 5 };

/// `CQHCI_TERRI_C_VALID`: the two above are set.
pub const COMMAND_VALID: BitField = BitField { low: 15, width: 1 };

/// `CQHCI_TERRI_D_INDEX`: the index of the command whose data phase did not end well.
pub const DATA_INDEX: BitField = BitField { low: 16, width: 6 };

/// `CQHCI_TERRI_D_TASK`: the slot of that data phase.
pub const DATA_TASK: BitField = BitField { low: 24, width: 5 };

/// `CQHCI_TERRI_D_VALID`: the two above are set.
pub const DATA_VALID: BitField = BitField { low: 31, width: 1 };

/// The address of the card in the register CQSSC2.
pub const QUEUE_RCA: BitField = BitField { low: 0, width: 16 };

/// CMD44 of the task of a slot.
pub(crate) fn params_of(slot: u8, desc: &TaskDesc) -> Command
    ensures { result ≡ params_of slot desc.now }
{
    Command::Params(Task {
        task: slot,
        read: desc.read,
        blocks: desc.blocks,
        forced: desc.forced,
        reliable: desc.reliable,
        high: desc.high,
    })
}

/// CMD46 or CMD47 of the task of a slot.
pub(crate) fn execute_of(slot: u8, desc: &TaskDesc) -> Command
    ensures { result ≡ execute_of slot desc.now }
{
    Command::Execute {
        read: desc.read,
        task: slot,
    }
}

/// CMD13 that asks for the queue status word.
pub(crate) fn poll_of(regs: &Regs) -> Command
    ensures { result ≡ poll_of regs.now }
{
    let address = u64::from(regs.value(Register::SendStatusConfiguration2));
    Command::Status {
        queue: true,
        rca: QUEUE_RCA.get(address) as u16,
    }
}

/// The command of a direct descriptor.
pub(crate) fn direct_of(desc: &DirectDesc) -> Command
    ensures { result ≡ direct_of desc.now }
{
    match Command::decode(desc.index, desc.arg) {
        Ok(command) => command,
        Err(_) => Command::Other {
            index: desc.index,
            arg: desc.arg,
        },
    }
}

/// The task error information of a command of a slot.
pub(crate) fn command_error(index: u8, slot: u8) -> u32
    ensures { result ≡ command_error index slot }
{
    register_of(&[
        COMMAND_INDEX.of(u64::from(index)),
        COMMAND_TASK.of(u64::from(slot)),
        COMMAND_VALID.of(1),
    ])
}

/// The task error information of a data phase of a slot.
pub(crate) fn data_error(index: u8, slot: u8) -> u32
    ensures { result ≡ data_error index slot }
{
    register_of(&[
        DATA_INDEX.of(u64::from(index)),
        DATA_TASK.of(u64::from(slot)),
        DATA_VALID.of(1),
    ])
}

/// Whether a response has a bit of the response error mask.
pub(crate) fn is_masked(regs: &Regs, word: u32) -> bool
    ensures { result ≡ is_masked regs.now word }
{
    word & regs.value(Register::ResponseErrorMask) != 0
}

/// Whether a status word has an error bit.
pub(crate) fn has_error(word: u32) -> bool
    ensures { result ≡ has_error word }
{
    !Status::of_word(word).is_empty()
}

// The register that has these fields and no other bit.
fn register_of(table: &[FieldValue]) -> u32
    requires apart { IsTrue (is_table table.now) }
    requires narrow { IsTrue (ends_below_32 table.now) }
    ensures { result ≡ word_with table.now }
{
    FieldValue::word_of(table) as u32
}

/// Whether a command asks for the queue status word.
pub(crate) fn is_poll(command: &Command) -> bool
    ensures { result ≡ is_poll command.now }
{
    matches!(command, Command::Status { queue: true, .. })
}
