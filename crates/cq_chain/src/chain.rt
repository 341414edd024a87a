ghost use Rattle.std.specs.Prelude.{◌≡◌, ◌↔◌, ◌+◌, ◌<◌, ◌^◌, List, IfErr, IfOk, IsOk, OnOk, Err, Ok};
ghost use Rattle.host_mem.specs.Memory.{HasRange};
ghost use Rattle.cq_chain.specs.declared.fault.ChainFault.{ChainFault};
ghost use Rattle.cq_chain.specs.declared.pieces.Piece.{Piece};
ghost use Rattle.cq_chain.specs.Descriptors.{Reads, ends, next, size_of, word_at};
ghost use Rattle.cq_chain.specs.Chain.{HasFault, HasPieces, longest_chain};
ghost use Rattle.cq_chain.specs.Steps.{left_after, read_at};

use crate::{ChainFault, LONGEST_CHAIN, Pieces};
use cq_desc::{DescFault, Xfer, read_xfer};
use cq_words::get64;
use host_mem::HostMem;

/// The pieces of the chain of transfer descriptors at `at`, for `want` bytes (JESD84-B51, annex B; the Linux driver
/// writes such a chain in `cqhci_prep_tran_desc`). Descriptors are of 16 bytes where they are `wide`, else of 8.
///
/// One descriptor after the other is judged, and the first that is bad gives the fault. The tests of one, in their
/// order: `LONGEST_CHAIN` descriptors came before it (`TooMany`); not all of it is in the memory (`Hole`); `NotValid`;
/// `BadAct`; not all of its piece is in the memory (`Hole`); its piece is longer than what is still wanted (`Long`);
/// it ends the chain and more is wanted (`Short`). No byte is at 2^64 or above.
pub fn walk(mem: &HostMem, at: u64, want: u32, wide: bool) -> Result<Pieces, ChainFault>
    ensures pieces { (pieces : List Piece) → (result ≡ Ok pieces) ↔ HasPieces mem.now wide longest_chain at want pieces }
    ensures fault { (fault : ChainFault) → (result ≡ Err fault) ↔ HasFault mem.now wide longest_chain at want fault }
{
    let mut pieces = Pieces::new();
    let mut left = want;
    let mut place = at;
    for _ in 0..LONGEST_CHAIN {
        let desc = descriptor_at(mem, place, wide)?;
        left = left_after(mem, desc, left)?;
        pieces.add(desc);
        if ends(desc) {
            return if left == 0 {
                Ok(pieces)
            } else {
                Err(ChainFault::Short)
            };
        }
        place = next(desc, place, wide);
    }
    Err(ChainFault::TooMany)
}

fn descriptor_at(mem: &HostMem, at: u64, wide: bool) -> Result<Xfer, ChainFault>
    ensures value { result ≡ read_at mem.now wide at }
    ensures below { OnOk result (at + size_of wide < 2 ^ 64) }
{
    let low = word_at(mem, at)?;
    let high = if wide { word_at(mem, at + 8)? } else { 0 };
    match read_xfer(low, high, wide) {
        Ok(desc) => Ok(desc),
        Err(DescFault::NotValid) => Err(ChainFault::NotValid),
        Err(DescFault::BadAct) => Err(ChainFault::BadAct),
    }
}

fn word_at(mem: &HostMem, at: u64) -> Result<u64, ChainFault>
    ensures inside { IsOk result ↔ HasRange mem.now at 8 }
    ensures value { IfOk result (λ word. word ≡ word_at mem.now at) }
    ensures hole { IfErr result (λ fault. fault ≡ ChainFault.Hole) }
    ensures below { OnOk result (at + 8 < 2 ^ 64) }
{
    let mut bytes = [0; 8];
    match mem.copy_out(at, &mut bytes) {
        Ok(()) => Ok(get64(&bytes, 0)),
        Err(_) => Err(ChainFault::Hole),
    }
}

/// The bytes that are wanted after a descriptor, of `left` before it.
fn left_after(mem: &HostMem, desc: Xfer, left: u32) -> Result<u32, ChainFault>
    ensures { result ≡ left_after mem.now desc left }
{
    match desc {
        Xfer::Piece { len, at, .. } => {
            if !mem.has(at, len as usize) {
                return Err(ChainFault::Hole);
            }
            if left < len {
                return Err(ChainFault::Long);
            }
            Ok(left - len)
        }
        Xfer::Link { .. } | Xfer::Nop { .. } => Ok(left),
    }
}

fn ends(desc: Xfer) -> bool
    ensures { result ≡ ends desc }
{
    match desc {
        Xfer::Piece { end, .. } | Xfer::Nop { end } => end,
        Xfer::Link { .. } => false,
    }
}

/// Where the descriptor after one at `at` stands.
fn next(desc: Xfer, at: u64, wide: bool) -> u64
    requires { at + size_of wide < 2 ^ 64 }
    ensures { result ≡ next wide at desc }
{
    match desc {
        Xfer::Link { at } => at,
        Xfer::Piece { .. } | Xfer::Nop { .. } => at + if wide { 16 } else { 8 },
    }
}
