// What a loss of power may leave.
ghost use Rattle.std.specs.Prelude.{◌≡◌, ◌<◌, IsTrue, length, List, [], ◌∷◌, ◌++◌};
ghost use Rattle.storage_model.specs.Cover.{Covers};
ghost use Rattle.storage_model.specs.Laws.{IsKeptOrLater, KeepsBarriers, KeepsReliable};
ghost use Rattle.storage_model.specs.Left.{is_left, is_left_in, is_mix, mix_at, same_granule};
ghost use Rattle.storage_model.specs.declared.block.Block.{Block};
ghost use Rattle.storage_model.specs.declared.block.TheConstants.{GRANULES};

use crate::block::GRANULES;
use crate::contents::count_bars;
use crate::{Block, Mark};

/// Whether a loss of power may leave `after` of the contents `base` under the marks `pend`: there is an epoch such that
/// all before it are whole, and each sector is a mix, by granules of 64 bytes, of its value then and its puts in that
/// epoch, where a reliable put mixes with none before it (JESD84-B51, the cache, its barrier and reliable write).
pub fn left_allows(base: &[Block], pend: &[Mark], after: &[Block]) -> bool
    requires { length after.now ≡ length base.now }
    ensures value { result ≡ is_left base.now pend.now after.now }
    ensures granules { IsTrue result → IsKeptOrLater base.now pend.now after.now }
    ensures barriers { IsTrue result → KeepsBarriers base.now pend.now after.now }
    ensures reliable { IsTrue result → KeepsReliable base.now pend.now after.now }
{
    for epoch in 0..=count_bars(pend) {
        if left_in(base, pend, after, epoch) {
            return true;
        }
    }
    false
}

fn left_in(base: &[Block], pend: &[Mark], after: &[Block], epoch: usize) -> bool
    requires { length after.now ≡ length base.now }
    ensures { result ≡ is_left_in base.now pend.now after.now epoch }
{
    for (sector, value) in after.iter().enumerate() {
        if !mix_allows(base, pend, epoch, sector, value) {
            return false;
        }
    }
    true
}

/// Whether `value` may be left of a sector where `epoch` is the one that was being written.
pub fn mix_allows(base: &[Block], pend: &[Mark], epoch: usize, sector: usize, value: &Block) -> bool
    requires { sector < length base.now }
    ensures { result ≡ mix_at base.now pend.now epoch sector value.now }
{
    let mut cover = cover_of(&base[sector], value);
    let mut now = 0;
    for mark in pend {
        match mark {
            Mark::Bar => {
                if now == epoch {
                    return is_full(&cover);
                }
                now += 1;
            }
            Mark::Put(put) => {
                if put.sector as usize == sector {
                    if now < epoch {
                        cover = cover_of(&put.value, value);
                    } else if put.reliable {
                        if is_full(&cover) {
                            return true;
                        }
                        cover = cover_of(&put.value, value);
                    } else {
                        add_cover(&mut cover, &put.value, value);
                    }
                }
            }
        }
    }
    is_full(&cover)
}

// Which granules of `left` one value has.
fn cover_of(value: &Block, left: &Block) -> [bool; GRANULES]
    ensures { Covers result (value.now ∷ []) left.now }
{
    let mut cover = [false; GRANULES];
    add_cover(&mut cover, value, left);
    cover
}

// Adds the granules that a further value has.
fn add_cover(cover: &mut [bool; GRANULES], value: &Block, left: &Block)
    ensures { (values : List Block) → Covers cover.old values left.now → Covers cover.new (values ++ value.now ∷ []) left.now }
{
    for (granule, has) in cover.iter_mut().enumerate() {
        if is_same_granule(granule, value, left) {
            *has = true;
        }
    }
}

fn is_full(cover: &[bool; GRANULES]) -> bool
    ensures { (values : List Block) → (left : Block) → Covers cover.now values left → result ≡ is_mix values left }
{
    cover.iter().all(|has| *has)
}

fn is_same_granule(granule: usize, value: &Block, other: &Block) -> bool
    requires { granule < GRANULES }
    ensures { result ≡ same_granule granule value.now other.now }
{
    let start = 64 * granule;
    value.0[start..start + 64] == other.0[start..start + 64]
}
