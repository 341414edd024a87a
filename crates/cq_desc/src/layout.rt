//! Where each field of a descriptor stands (JESD84-B51, annex B; the macros `CQHCI_*` of the Linux driver's cqhci.h).

use cq_words::BitField;

/// `CQHCI_VALID`, in every descriptor.
pub const VALID: BitField = BitField { low: 0, width: 1 };
/// `CQHCI_END`, in every descriptor: the last of a chain.
pub const END: BitField = BitField { low: 1, width: 1 };
/// `CQHCI_INT`, in every descriptor: the completion interrupts at once.
pub const INT: BitField = BitField { low: 2, width: 1 };
/// `CQHCI_ACT`, in every descriptor: what it is for, one of the four acts below.
pub const ACT: BitField = BitField { low: 3, width: 3 };

/// The act of a descriptor that only fills a place.
pub const ACT_NOP: u64 = 0;
/// The act of a transfer descriptor: a piece of the data.
pub const ACT_TRANSFER: u64 = 4;
/// The act of a task descriptor and of a direct command's.
pub const ACT_TASK: u64 = 5;
/// The act of a link to the next descriptors.
pub const ACT_LINK: u64 = 6;

/// `CQHCI_FORCED_PROG`, in a task descriptor.
pub const FORCED_PROGRAMMING: BitField = BitField { low: 6, width: 1 };
/// `CQHCI_CONTEXT`, in a task descriptor.
pub const CONTEXT: BitField = BitField { low: 7, width: 4 };
/// `CQHCI_DATA_TAG`, in a task descriptor.
pub const TAG_REQUEST: BitField = BitField { low: 11, width: 1 };
/// `CQHCI_DATA_DIR`, in a task descriptor: 1 for a read.
pub const DIRECTION: BitField = BitField { low: 12, width: 1 };
/// `CQHCI_PRIORITY`, in a task descriptor: 1 for a high one.
pub const PRIORITY: BitField = BitField { low: 13, width: 1 };
/// `CQHCI_QBAR`, in a task descriptor and in a direct command's.
pub const QUEUE_BARRIER: BitField = BitField { low: 14, width: 1 };
/// `CQHCI_REL_WRITE`, in a task descriptor.
pub const RELIABLE_WRITE: BitField = BitField { low: 15, width: 1 };
/// `CQHCI_BLK_COUNT`, in a task descriptor.
pub const BLOCK_COUNT: BitField = BitField { low: 16, width: 16 };
/// `CQHCI_BLK_ADDR`, in a task descriptor: the start sector.
pub const BLOCK_ADDRESS: BitField = BitField { low: 32, width: 32 };

/// `CQHCI_CMD_INDEX`, in a direct command's descriptor.
pub const COMMAND_INDEX: BitField = BitField { low: 16, width: 6 };
/// `CQHCI_CMD_TIMING`, in a direct command's descriptor.
pub const COMMAND_TIMING: BitField = BitField { low: 22, width: 1 };
/// `CQHCI_RESP_TYPE`, in a direct command's descriptor: 0 for none, 2 for R1, 3 for R1b.
pub const RESPONSE_TYPE: BitField = BitField { low: 23, width: 2 };
/// The argument of a direct command, the word after its attributes.
pub const COMMAND_ARGUMENT: BitField = BitField { low: 32, width: 32 };

/// The response type that is reserved.
pub const RESPONSE_RESERVED: u64 = 1;

/// `CQHCI_DAT_LENGTH`, in a transfer descriptor: the bytes, with 0 for `LONGEST_PIECE`.
pub const DATA_LENGTH: BitField = BitField { low: 16, width: 16 };
/// `CQHCI_DAT_ADDR_LO`, in a transfer or link descriptor: the address, or its low half.
pub const DATA_ADDRESS: BitField = BitField { low: 32, width: 32 };
/// `CQHCI_DAT_ADDR_HI`, in the high word of the 128-bit form: the address's high half.
pub const DATA_ADDRESS_HIGH: BitField = BitField { low: 0, width: 32 };

/// The most bytes of a piece.
pub const LONGEST_PIECE: u32 = 65536;
