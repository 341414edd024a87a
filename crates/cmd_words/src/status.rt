ghost use Rattle.std.specs.Prelude.{⊤, ◌≡◌};
ghost use Rattle.cq_words.specs.Table.{number_in};
ghost use Rattle.cmd_words.specs.Status.{error_bits, error_table, ready_bit, state_bits, status_word};
ghost use Rattle.std.specs.Int.RustNames.{bit_and};

use bitflags::{Flag, Flags, bitflag_items};
use cq_words::BitField;

/// The bits of the device status that this card can set, all of them errors (JESD84-B51, section 6.13; R1_OUT_OF_RANGE
/// and its like in Linux).
#[derive(Clone, Copy, Debug, PartialEq, Eq)]
pub struct Status(u32);

/// Where the word has the state of the card.
pub const CURRENT_STATE: BitField = BitField { low: 9, width: 4 };

/// Where the word says that the card is ready for data.
pub const READY_FOR_DATA: BitField = BitField { low: 8, width: 1 };

/// The transfer state, the only one that this card has (R1_STATE_TRAN in Linux).
pub const TRAN: u32 = 4;

/// The word of a card without an error.
pub const IDLE: u32 = TRAN << CURRENT_STATE.low | 1 << READY_FOR_DATA.low;

/// The bits of every error.
pub const ERRORS: u32 = Status::ADDRESS_OUT_OF_RANGE.0
    | Status::ADDRESS_MISALIGN.0
    | Status::ILLEGAL_COMMAND.0
    | Status::DEVICE_ECC_FAILED.0
    | Status::ERROR.0
    | Status::SWITCH_ERROR.0;

bitflag_items! {
    impl Status: u32 {
        /// An address past the end of the card.
        const ADDRESS_OUT_OF_RANGE = 0x8000_0000;
        /// An address that does not fit the units of the card.
        const ADDRESS_MISALIGN = 0x4000_0000;
        /// A command that the card does not take in its state.
        const ILLEGAL_COMMAND = 0x0040_0000;
        /// A read of the flash failed.
        const DEVICE_ECC_FAILED = 0x0020_0000;
        /// Any other fault of the card.
        const ERROR = 0x0008_0000;
        /// The extended CSD refused a SWITCH.
        const SWITCH_ERROR = 0x0000_0080;
    }
}

impl Flags for Status {
    type Bits = u32;

    ghost exact = { ⊤ };

    ghost table = { error_table };

    ghost set_of = { λ status. status.0 };

    fn flags<'a>() -> &'a [Flag<Status>] {
        Status::FLAGS
    }

    fn bits(&self) -> u32 {
        self.0
    }

    fn from_bits_retain(bits: u32) -> Status {
        Status(bits)
    }
}

impl Status {
    /// The status word: the errors of the set beside the state, which is always 4 (tran), and READY_FOR_DATA.
    pub fn word(self) -> u32
        ensures value { result ≡ status_word self.0 }
        ensures errors { bit_and result error_bits ≡ bit_and self.0 error_bits }
        ensures state { number_in result state_bits ≡ 4 }
        ensures ready { number_in result ready_bit ≡ 1 }
    {
        self.0 & ERRORS | IDLE
    }

    /// The errors that a status word shows.
    pub fn of_word(word: u32) -> Status
        ensures { result.0 ≡ bit_and word error_bits }
    {
        Status::from_bits_truncate(word)
    }
}
