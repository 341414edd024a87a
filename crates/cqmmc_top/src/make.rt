// A new image.
ghost use Rattle.std.specs.Prelude.{◌≡◌, ◌+◌, ◌<◌, ◌≤◌, true, IfErr, IfSome, OnErr, OnOk};
ghost use Rattle.storage_model.specs.Count.{Later};
ghost use Rattle.array_edge.specs.Array.{IsTorn, with_page};
ghost use Rattle.cqmmc_top.specs.Made.{Blanked, CallRefused, IsCleared, IsLeft, IsZeroImage, Makes, MakingRefused, zero_block};

use crate::refusal::Refusal;
use array_edge::{Array, ArrayEnd};
use image_form::{Gate, Super, write_gate, write_super};
use storage_model::Block;

const ZEROS: Block = Block([0; 512]);

/// Makes an image of zero sectors: page 0 is cleared, the other pages are written, and when all this is durable the
/// superblock makes it an image, which is durable too.
pub fn make_image<A: Array>(sectors: u32, array: &mut A) -> Result<(), Refusal>
    requires some { 1 ≤ sectors }
    requires most { sectors ≤ 65536 }
    ensures made { OnOk result (IfSome (A.state array.new).told (IsZeroImage sectors)) }
    ensures room { OnOk result (8 + sectors ≤ (A.state array.old).count) }
    ensures settled { OnOk result ((A.state array.new).settled ≡ true) }
    ensures refused { IfErr result (MakingRefused sectors (A.state array.old) (A.state array.new)) }
    ensures left { IsLeft sectors (A.state array.old).told (A.state array.new).told }
    ensures faults { Later (A.state array.old).faults (A.state array.new).faults }
    ensures cuts { Later (A.state array.old).cuts (A.state array.new).cuts }
{
    if array.pages() < 8 + sectors {
        return Err(Refusal::BadImage);
    }
    array.power_on();
    program_page(0, &ZEROS, array)?;
    program_page(1, &write_gate(Gate::Shut), array)?;
    clear_pages(2, 8 + sectors, array)?;
    settle(array)?;
    let superblock = write_super(Super {
        version: 1,
        sectors,
    });
    program_settled(0, &superblock, array)
}

// Writes zeros to the pages from `first` up to `last`, without it.
fn clear_pages<A: Array>(first: u32, last: u32, array: &mut A) -> Result<(), Refusal>
    requires behind { 1 ≤ first }
    requires within { last ≤ (A.state array.old).count }
    requires on { (A.state array.old).powered ≡ true }
    ensures blank { OnOk result (Blanked first last (A.state array.old).told (A.state array.new).told) }
    ensures cleared { IsCleared (A.state array.old).told → IsCleared (A.state array.new).told }
    ensures makes { Makes (A.state array.old) (A.state array.new) result }
{
    for page in first..last {
        program_page(page, &ZEROS, array)?;
    }
    Ok(())
}

#[tactic(auto, using(crate::proofs::Leaving::cleared_other, crate::proofs::Leaving::cleared_torn))]
fn program_page<A: Array>(page: u32, block: &Block, array: &mut A) -> Result<(), Refusal>
    requires within { page < (A.state array.old).count }
    requires on { (A.state array.old).powered ≡ true }
    ensures written { OnOk result ((A.state array.new).told ≡ with_page (A.state array.old).told page block.now) }
    ensures torn { OnErr result (IsTorn (A.state array.old).told page block.now (A.state array.new).told) }
    ensures cleared { 1 ≤ page → IsCleared (A.state array.old).told → IsCleared (A.state array.new).told }
    ensures makes { Makes (A.state array.old) (A.state array.new) result }
{
    match array.program(page, block) {
        Ok(()) => Ok(()),
        Err(ArrayEnd::Failed) => Err(Refusal::ArrayFault),
        Err(ArrayEnd::PowerLost) => Err(Refusal::NoPower),
    }
}

// Programs a page, and makes it durable. Where that fails the page may be new as a whole.
#[tactic(auto, using(crate::proofs::Leaving::torn_whole))]
fn program_settled<A: Array>(page: u32, block: &Block, array: &mut A) -> Result<(), Refusal>
    requires within { page < (A.state array.old).count }
    requires on { (A.state array.old).powered ≡ true }
    ensures written { OnOk result ((A.state array.new).told ≡ with_page (A.state array.old).told page block.now) }
    ensures torn { OnErr result (IsTorn (A.state array.old).told page block.now (A.state array.new).told) }
    ensures settled { OnOk result ((A.state array.new).settled ≡ true) }
    ensures makes { Makes (A.state array.old) (A.state array.new) result }
{
    program_page(page, block, array)?;
    settle(array)
}

fn settle<A: Array>(array: &mut A) -> Result<(), Refusal>
    requires { (A.state array.old).powered ≡ true }
    ensures same { (A.state array.new).told ≡ (A.state array.old).told }
    ensures settled { OnOk result ((A.state array.new).settled ≡ true) }
    ensures makes { Makes (A.state array.old) (A.state array.new) result }
{
    match array.settle() {
        Ok(()) => Ok(()),
        Err(ArrayEnd::Failed) => Err(Refusal::ArrayFault),
        Err(ArrayEnd::PowerLost) => Err(Refusal::NoPower),
    }
}
