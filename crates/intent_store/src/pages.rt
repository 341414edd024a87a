ghost use Rattle.std.specs.Prelude.{◌≡◌, ◌<◌, true, false, OnOk, OnErr};
ghost use Rattle.image_form.specs.Image.{Fetch, Program};
ghost use Rattle.array_edge.specs.Array.{ArrayState, HasPage, IsTorn, with_page};
ghost use Rattle.intent_store.specs.Intent.{StoreEnds, IsRefusedOff};
ghost use Rattle.intent_store.specs.Steps.{IsWritten};
ghost use Rattle.intent_store.specs.Calls.{IsCall};

use crate::StoreEnd;
use array_edge::{Array, ArrayEnd};
use storage_model::Block;

// Reads a page.
pub fn fetch<A: Array>(array: &mut A, page: u32, block: &mut Block) -> Result<(), StoreEnd>
    requires { page < (A.state array.old).count }
    ensures read { OnOk result (HasPage (A.state array.old).told page block.new) }
    ensures same { A.state array.new ≡ record (A.state array.old) { faults = (A.state array.new).faults; fetches = (A.state array.new).fetches } }
    ensures ends { StoreEnds (A.state array.old) (A.state array.new) result }
    ensures off { IsRefusedOff (A.state array.old) (A.state array.new) result }
    ensures call { (A.state array.old).powered ≡ true → IsCall (Fetch page) (A.state array.old) (A.state array.new) result }
{
    match array.fetch(page, block) {
        Ok(()) => Ok(()),
        Err(ArrayEnd::Failed) => Err(StoreEnd::Flash),
        Err(ArrayEnd::PowerLost) => Err(StoreEnd::PowerLost),
    }
}

// Writes a page.
#[tactic(auto, using(crate::proofs::WriteLemmas::whole_write, crate::proofs::WriteLemmas::torn_write, crate::proofs::WriteLemmas::tells_write, crate::proofs::WriteLemmas::tells_torn))]
pub fn program<A: Array>(array: &mut A, page: u32, block: &Block) -> Result<(), StoreEnd>
    requires { page < (A.state array.old).count }
    ensures written { IsWritten (A.state array.old).told page block.now (A.state array.new).told result }
    ensures unsettled { OnOk result ((A.state array.new).settled ≡ false) }
    ensures ends { StoreEnds (A.state array.old) (A.state array.new) result }
    ensures off { IsRefusedOff (A.state array.old) (A.state array.new) result }
    ensures call { (A.state array.old).powered ≡ true → IsCall (Program page) (A.state array.old) (A.state array.new) result }
{
    match array.program(page, block) {
        Ok(()) => Ok(()),
        Err(ArrayEnd::Failed) => Err(StoreEnd::Flash),
        Err(ArrayEnd::PowerLost) => Err(StoreEnd::PowerLost),
    }
}
