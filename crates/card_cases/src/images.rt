// The array that the tests of stores, cards and links are over.
ghost use Rattle.std.specs.Prelude.{◌≡◌, IfOk, length};

use array_edge::MemArray;
use image_form::{Gate, Super, write_gate, write_super};
use std::alloc::Global;
use storage_model::{ArrayHit, ArrayHits, Block, BlockList, NoMemory};

/// An image of 8 zero sectors, of whose calls these fail.
pub fn image(alloc: Global, hits: &[ArrayHit]) -> Result<MemArray, NoMemory>
    ensures { IfOk result (λ array. length array.pages ≡ 16) }
{
    let mut pages = BlockList::from_vec(vec![in alloc; Block([0; 512]); 16]?);
    let first = Super {
        version: 1,
        sectors: 8,
    };
    pages.set(0, write_super(first));
    pages.set(1, write_gate(Gate::Shut));
    let hits = ArrayHits::from_vec(hits.to_vec(alloc)?);
    Ok(MemArray::over(pages, hits))
}
