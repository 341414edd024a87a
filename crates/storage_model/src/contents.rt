// Contents under marks: what they are now, and what a flush keeps.
ghost use Rattle.std.specs.Prelude.{◌≡◌, ◌||◌, nat_lt, All, IfOk};
ghost use Rattle.storage_model.specs.Contents.{IsWithin, bars, contents_now};
ghost use Rattle.storage_model.specs.Keep.{is_named, keep_base, keep_pend};

use crate::{Block, BlockList, Kept, Mark, MarkList, NoMemory};
use std::alloc::Global;

/// The contents `base` after the puts of `pend`, in order. The only error is want of memory.
pub fn now(alloc: Global, base: &[Block], pend: &[Mark]) -> Result<BlockList, NoMemory>
    requires { All (IsWithin base.now) pend.now }
    ensures { IfOk result (λ contents. contents ≡ contents_now base.now pend.now) }
{
    let mut contents = Vec::from_slice(alloc, base)?;
    for mark in pend {
        if let Mark::Put(put) = mark {
            contents[put.sector as usize] = put.value;
        }
    }
    Ok(BlockList::from_vec(contents))
}

/// Makes the epochs before the last durable, and of the last the puts on the `blocks` sectors from `first` on. The other
/// puts stay, in order and without a barrier. So a forced or reliable write keeps its sectors, and a cache flush all
/// (JESD84-B51, the cache). The only error is want of memory.
pub fn keep(
    alloc: Global,
    base: &[Block],
    pend: &[Mark],
    first: u32,
    blocks: u32,
) -> Result<Kept, NoMemory>
    requires { All (IsWithin base.now) pend.now }
    ensures base { IfOk result (λ kept. kept.base ≡ keep_base (is_named first blocks) base.now pend.now) }
    ensures pend { IfOk result (λ kept. kept.pend ≡ keep_pend (is_named first blocks) pend.now) }
    ensures now { IfOk result (λ kept. contents_now kept.base kept.pend ≡ contents_now base.now pend.now) }
{
    let last = count_bars(pend);
    let mut contents = Vec::from_slice(alloc, base)?;
    let mut others = MarkList::new(alloc);
    let mut epoch = 0;
    for mark in pend {
        match mark {
            Mark::Bar => epoch += 1,
            Mark::Put(put) => {
                if is_durable(epoch, last, put.sector, first, blocks) {
                    contents[put.sector as usize] = put.value;
                } else {
                    others.push(*mark)?;
                }
            }
        }
    }
    Ok(Kept {
        base: BlockList::from_vec(contents),
        pend: others,
    })
}

/// The number of barriers, which is the number of the last epoch: epochs are counted from 0.
pub fn count_bars(pend: &[Mark]) -> usize
    ensures { result ≡ bars pend.now }
{
    let mut count = 0;
    for mark in pend {
        if let Mark::Bar = mark {
            count += 1;
        }
    }
    count
}

// Whether a put of an epoch is among those that a flush of the named sectors keeps.
fn is_durable(epoch: usize, last: usize, sector: u32, first: u32, blocks: u32) -> bool
    ensures { result ≡ (nat_lt epoch last || is_named first blocks sector) }
{
    epoch < last || first <= sector && u64::from(sector) < u64::from(first) + u64::from(blocks)
}
