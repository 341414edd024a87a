ghost use Rattle.std.specs.Prelude.{◌≡◌, ◌/◌, ◌%◌, ◌^◌, IfOk, IsTrue, Ok, if◌then◌else◌};
ghost use Rattle.cq_words.specs.Table.{Fits, Holds, word_with};
ghost use Rattle.cq_desc.specs.Transfer.{IsXferInRange, address_of, high_table, length_of, xfer_read, xfer_table};

use crate::DescFault;
use crate::layout::{
    ACT, ACT_LINK, ACT_NOP, ACT_TRANSFER, DATA_ADDRESS, DATA_ADDRESS_HIGH, DATA_LENGTH, END, INT,
    LONGEST_PIECE, VALID,
};
use cq_words::FieldValue;

/// A descriptor of a chain: a piece of the data, a link to the next descriptors, or none of these.
#[derive(Clone, Copy, Debug, PartialEq, Eq)]
pub enum Xfer {
    /// `len` bytes at `at`, 1 to 65,536 of them.
    Piece {
        end: bool,
        int: bool,
        len: u32,
        at: u64,
    },
    /// The chain goes on at `at`.
    Link {
        at: u64,
    },
    /// Nothing moves.
    Nop {
        end: bool,
    },
}

/// The transfer descriptor in two words: `low` alone in the 64-bit form, both where it is `wide`.
pub fn read_xfer(low: u64, high: u64, wide: bool) -> Result<Xfer, DescFault>
    ensures value { result ≡ xfer_read low high wide }
    ensures table { IfOk result (λ xfer. Holds low (xfer_table xfer)) }
    ensures high { IsTrue wide → IfOk result (λ xfer. Holds high (high_table xfer)) }
{
    if !VALID.is_set(low) {
        return Err(DescFault::NotValid);
    }
    let at = address_in(low, high, wide);
    match ACT.get(low) {
        ACT_TRANSFER => Ok(Xfer::Piece {
            end: END.is_set(low),
            int: INT.is_set(low),
            len: length_in(low),
            at,
        }),
        ACT_LINK => Ok(Xfer::Link { at }),
        ACT_NOP => Ok(Xfer::Nop {
            end: END.is_set(low),
        }),
        _ => Err(DescFault::BadAct),
    }
}

fn address_in(low: u64, high: u64, wide: bool) -> u64
    ensures { result ≡ address_of low high wide }
{
    let address = DATA_ADDRESS.get(low);
    if wide {
        address + (DATA_ADDRESS_HIGH.get(high) << 32)
    } else {
        address
    }
}

fn length_in(low: u64) -> u32
    ensures { result ≡ length_of low }
{
    match DATA_LENGTH.get(low) as u32 {
        0 => LONGEST_PIECE,
        len => len,
    }
}

/// The two words of a transfer descriptor, the low one first, as `cqhci_set_tran_desc` writes them. The high word is 0
/// in the 64-bit form, where the address is cut to its low half.
pub fn write_xfer(xfer: &Xfer, wide: bool) -> (u64, u64)
    ensures low { result.0 ≡ word_with (xfer_table xfer.now) }
    ensures high { result.1 ≡ (if wide then word_with (high_table xfer.now) else 0) }
    ensures read_again { IsXferInRange wide xfer.now → xfer_read result.0 result.1 wide ≡ Ok xfer.now }
{
    let high = if wide { high_word(xfer) } else { 0 };
    (low_word(xfer), high)
}

fn low_word(xfer: &Xfer) -> u64
    ensures value { result ≡ word_with (xfer_table xfer.now) }
    ensures holds { Holds result (xfer_table xfer.now) }
{
    match *xfer {
        Xfer::Piece { end, int, len, at } => FieldValue::word_of(&[
            VALID.of(1),
            ACT.of(ACT_TRANSFER),
            END.flag(end),
            INT.flag(int),
            DATA_LENGTH.of(u64::from(len % LONGEST_PIECE)),
            DATA_ADDRESS.of(low_half(at)),
        ]),
        Xfer::Link { at } => {
            FieldValue::word_of(&[VALID.of(1), ACT.of(ACT_LINK), DATA_ADDRESS.of(low_half(at))])
        }
        Xfer::Nop { end } => FieldValue::word_of(&[VALID.of(1), ACT.of(ACT_NOP), END.flag(end)]),
    }
}

fn high_word(xfer: &Xfer) -> u64
    ensures value { result ≡ word_with (high_table xfer.now) }
    ensures holds { Holds result (high_table xfer.now) }
{
    match *xfer {
        Xfer::Piece { at, .. } | Xfer::Link { at } => FieldValue::word_of(&[DATA_ADDRESS_HIGH.of(
            at >> 32,
        )]),
        Xfer::Nop { .. } => 0,
    }
}

fn low_half(at: u64) -> u64
    ensures { result ≡ at % 2 ^ 32 }
{
    at & 0xffff_ffff
}
