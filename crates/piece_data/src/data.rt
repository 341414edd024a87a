ghost use Rattle.std.specs.Prelude.{◌≡◌, ◌+◌, ◌-◌, ◌*◌, ◌≤◌, length, min, take, drop};
ghost use Rattle.host_mem.specs.Memory.{HasRange, bytes_of, with_bytes};
ghost use Rattle.cq_chain.specs.Descriptors.{AreInside, bytes_in};
ghost use Rattle.piece_data.specs.Data.{block_of, bytes_at, parts, scatter, with_block};
ghost use Rattle.piece_data.specs.Laws.{AreApart, ChangesBlock, HasSameSpace, KeepsOthers};

use cq_chain::Piece;
use host_mem::HostMem;
use storage_model::Block;

/// The bytes of a block.
const BLOCK_BYTES: u32 = 512;

/// Reads block `k` of the data of these pieces: the bytes `512 * k` to `512 * k + 511` of what the pieces hold one after
/// the other, in the order of the chain (JESD84-B51, annex B). It takes no memory.
pub fn read_block(mem: &HostMem, pieces: &[Piece], k: u16, block: &mut Block)
    requires inside { AreInside mem.now pieces.now }
    requires whole { 512 * (k + 1) ≤ bytes_in pieces.now }
    ensures { block.new ≡ block_of mem.now pieces.now k }
{
    gather(mem, pieces, BLOCK_BYTES * u32::from(k), &mut block.0);
}

/// Writes block `k` of the data of these pieces, in the order of the chain (JESD84-B51, annex B): where two of them
/// overlap, the later one has its bytes. It takes no memory.
pub fn write_block(mem: &mut HostMem, pieces: &[Piece], k: u16, block: &Block)
    requires inside { AreInside mem.old pieces.now }
    requires whole { 512 * (k + 1) ≤ bytes_in pieces.now }
    ensures written { mem.new ≡ with_block mem.old pieces.now k block.now }
    ensures space { HasSameSpace mem.old mem.new }
    ensures others { KeepsOthers (parts pieces.now (512 * k) 512) mem.old mem.new }
    ensures blocks { AreApart pieces.now → ChangesBlock pieces.now mem.old mem.new k block.now }
{
    scatter(mem, pieces, BLOCK_BYTES * u32::from(k), &block.0);
}

/// Reads as many bytes of the data as `to` has, from its byte `first` on.
fn gather(mem: &HostMem, pieces: &[Piece], first: u32, to: &mut [u8])
    requires inside { AreInside mem.now pieces.now }
    requires whole { first + length to.old ≤ bytes_in pieces.now }
    ensures { to.new ≡ take (length to.old) (drop first (bytes_at mem.now pieces.now)) }
{
    let mut skip = first;
    let mut done = 0;
    for piece in pieces {
        let count = count_of(piece, skip, to.len() - done);
        read_part(mem, piece, skip, &mut to[done..done + count]);
        done += count;
        skip = skip.saturating_sub(piece.len);
    }
}

/// Writes bytes of the data, from its byte `first` on.
fn scatter(mem: &mut HostMem, pieces: &[Piece], first: u32, from: &[u8])
    requires inside { AreInside mem.old pieces.now }
    requires whole { first + length from.now ≤ bytes_in pieces.now }
    ensures { mem.new ≡ scatter mem.old (parts pieces.now first (length from.now)) from.now }
{
    let mut skip = first;
    let mut done = 0;
    for piece in pieces {
        let count = count_of(piece, skip, from.len() - done);
        write_part(mem, piece, skip, &from[done..done + count]);
        done += count;
        skip = skip.saturating_sub(piece.len);
    }
}

/// How many of the `left` bytes that follow the piece's first `skip` bytes are in the piece.
fn count_of(piece: &Piece, skip: u32, left: usize) -> usize
    ensures { result ≡ min (piece.now.len - skip) left }
{
    left.min(piece.len.saturating_sub(skip) as usize)
}

/// Reads bytes of the piece, from its byte `skip` on.
fn read_part(mem: &HostMem, piece: &Piece, skip: u32, to: &mut [u8])
    requires inside { HasRange mem.now piece.now.at piece.now.len }
    requires within { length to.old ≤ piece.now.len - skip }
    ensures { to.new ≡ bytes_of mem.now (piece.now.at + skip) (length to.old) }
{
    let place = piece.at.saturating_add(u64::from(skip));
    match mem.copy_out(place, to) {
        Ok(()) => {}
        Err(_) => unreachable!(),
    }
}

/// Writes bytes of the piece, from its byte `skip` on.
fn write_part(mem: &mut HostMem, piece: &Piece, skip: u32, from: &[u8])
    requires inside { HasRange mem.old piece.now.at piece.now.len }
    requires within { length from.now ≤ piece.now.len - skip }
    ensures { mem.new ≡ with_bytes mem.old (piece.now.at + skip) from.now }
{
    let place = piece.at.saturating_add(u64::from(skip));
    match mem.copy_in(place, from) {
        Ok(()) => {}
        Err(_) => unreachable!(),
    }
}
