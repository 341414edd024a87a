ghost use Rattle.std.specs.Prelude.{◌≡◌, IfOk, Ok};
ghost use Rattle.cq_words.specs.Table.{Fits, Holds, word_with};
ghost use Rattle.cq_desc.specs.Direct.{IsDirectInRange, direct_of, direct_read, direct_table, written_direct};

use crate::DescFault;
use crate::layout::{
    ACT, ACT_TASK, COMMAND_ARGUMENT, COMMAND_INDEX, COMMAND_TIMING, END, INT, QUEUE_BARRIER,
    RESPONSE_RESERVED, RESPONSE_TYPE, VALID,
};
use cq_words::FieldValue;

/// A direct command's descriptor: a command that the engine sends as it stands.
#[derive(Clone, Copy, Debug, PartialEq, Eq)]
pub struct DirectDesc {
    /// The completion interrupts at once.
    pub int: bool,
    /// A queue barrier: no task passes it.
    pub barrier: bool,
    /// The command's index, below 64.
    pub index: u8,
    /// The command's timing: 0 where it waits for the card to be ready.
    pub timing: bool,
    /// The response type: 0 for none, 2 for R1, 3 for R1b. 1 is reserved.
    pub resp: u8,
    /// The command's argument.
    pub arg: u32,
}

/// The direct command that stands in the low word of either form.
pub fn read_direct(low: u64) -> Result<DirectDesc, DescFault>
    ensures value { result ≡ direct_read low }
    ensures table { IfOk result (λ desc. Holds low (direct_table desc)) }
{
    if !VALID.is_set(low) {
        return Err(DescFault::NotValid);
    }
    if ACT.get(low) != ACT_TASK {
        return Err(DescFault::BadAct);
    }
    if RESPONSE_TYPE.get(low) == RESPONSE_RESERVED {
        return Err(DescFault::BadAct);
    }
    Ok(direct_in(low))
}

fn direct_in(low: u64) -> DirectDesc
    ensures { result ≡ direct_of low }
{
    DirectDesc {
        int: INT.is_set(low),
        barrier: QUEUE_BARRIER.is_set(low),
        index: COMMAND_INDEX.get(low) as u8,
        timing: COMMAND_TIMING.is_set(low),
        resp: RESPONSE_TYPE.get(low) as u8,
        arg: COMMAND_ARGUMENT.get(low) as u32,
    }
}

/// The low word of a direct command's descriptor, as `cqhci_prep_dcmd_desc` writes it. An index or a response type too
/// great for its field is cut.
pub fn write_direct(desc: &DirectDesc) -> u64
    ensures value { result ≡ word_with (written_direct desc.now) }
    ensures read_again { IsDirectInRange desc.now → direct_read result ≡ Ok desc.now }
{
    FieldValue::word_of(&rows_of_direct(desc))
}

fn rows_of_direct(desc: &DirectDesc) -> [FieldValue; 9]
    ensures rows { result ≡ written_direct desc.now }
    ensures fits { IsDirectInRange desc.now → Fits (written_direct desc.now) }
{
    [
        END.of(1),
        VALID.of(1),
        ACT.of(ACT_TASK),
        INT.flag(desc.int),
        QUEUE_BARRIER.flag(desc.barrier),
        COMMAND_INDEX.of(u64::from(desc.index)),
        COMMAND_TIMING.flag(desc.timing),
        RESPONSE_TYPE.of(u64::from(desc.resp)),
        COMMAND_ARGUMENT.of(u64::from(desc.arg)),
    ]
}
