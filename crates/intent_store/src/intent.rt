ghost use Rattle.std.specs.Prelude.{◌≡◌, ◌⊎◌, ◌≤◌, ◌<◌, ◌+◌, true, false, [], ◌∷◌, is_ok, Bool, List, IsOk, IsErr, Some, Err, IsErrOf, IsNone, IsSome, IfSome, IfOk, OnOk, OnErr};
ghost use Rattle.array_edge.specs.Array.{ArrayState, HasPage, IsTorn, with_page};
ghost use Rattle.image_form.specs.Form.{gate_number, gate_head, page_of};
ghost use Rattle.image_form.specs.declared.gate.Gate.TheVariants.{Shut, Ajar};
ghost use Rattle.image_form.specs.Image.{PageCall, Fetch, IsImage, Program, finishing, gate_at, opening};
ghost use Rattle.intent_store.specs.declared.ends.StartEnd.TheVariants.{BadImage};
ghost use Rattle.intent_store.specs.Calls.{IsCall, Makes, MakesFor, Opens, looking, programming, reading, replacing};
ghost use Rattle.intent_store.specs.Intent.{Known, IntentStands, IsNoImage, IsOldOrNew, ShowsImage, StartEnds, StoreEnds, IsRefusedOff, shown_by};
ghost use Rattle.intent_store.specs.Steps.{GateIn, IsOpening, IsWritten, IsMoved, after_gate, place_of, intent_by, with_intent};

use crate::pages::{fetch, program};
use crate::{StartEnd, StoreEnd};
use array_edge::Array;
use image_form::{Gate, read_gate, read_super, write_gate};
use std::marker::Model;
use storage_model::Block;

/// An opened image: the number of its sectors, and its gate, which is in doubt after a program of it failed.
#[derive(Debug, Drop)]
pub struct Intent {
    sectors: u32,
    gate: Option<Gate>,
}

impl Model for Intent {
    ghost use Rattle.intent_store.specs.Intent.{Known};
    ghost use Rattle.intent_store.specs.Steps.{IsInRange};

    ghost Value = { Known };

    ghost view = { λ i. record { sectors = i.sectors; gate = i.gate } };

    ghost invariant = { λ i. IsInRange i.sectors i.gate };
}

impl Intent {
    /// Opens an image: switches the array on, fetches page 0 and page 1, and where the gate is ajar for a sector, fetches
    /// the intent page, programs the sector with it and programs the gate shut. `BadImage` comes where the first two pages
    /// are no superblock and gate or the array has fewer than 8 + sectors pages; of fewer than 2 pages none is fetched.
    /// An opening that was cut may begin again.
    pub fn start<A: Array>(array: &mut A) -> Result<Intent, StartEnd>
        ensures stands { IfOk result (λ intent. IntentStands intent (A.state array.new)) }
        ensures shut { OnOk result (IfSome (A.state array.new).told (λ pages. gate_at pages ≡ Shut)) }
        ensures image { OnOk result (ShowsImage (A.state array.old)) }
        ensures bad { IsErrOf result BadImage → IsNoImage (A.state array.old) }
        ensures bad_told { IsErrOf result BadImage → (A.state array.new).told ≡ (A.state array.old).told }
        ensures programs { IfSome (A.state array.old).told (λ pages. (IsImage pages → ⊥) → (A.state array.new).programs ≡ (A.state array.old).programs) }
        ensures few { (A.state array.old).count < 2 → (result ≡ Err BadImage) × (A.state array.new ≡ record (A.state array.old) { powered = true }) }
        ensures shown { shown_by (A.state array.new) ≡ shown_by (A.state array.old) }
        ensures kept { ShowsImage (A.state array.old) → ShowsImage (A.state array.new) }
        ensures was_image { ShowsImage (A.state array.new) → ShowsImage (A.state array.old) }
        ensures ends { StartEnds (A.state array.old) (A.state array.new) result }
        ensures calls { Opens (record (A.state array.old) { powered = true }) (A.state array.new) (is_ok result) }
    {
        array.power_on();
        let mut intent = Intent::find(array)?;
        intent.close(array)?;
        Ok(intent)
    }

    // Fetches page 0 and page 1, and judges both.
    fn find<A: Array>(array: &mut A) -> Result<Intent, StartEnd>
        requires { (A.state array.old).powered ≡ true }
        ensures stands { IfOk result (λ intent. IntentStands intent (A.state array.new)) }
        ensures bad { IsErrOf result BadImage → IsNoImage (A.state array.old) }
        ensures told { (A.state array.new).told ≡ (A.state array.old).told }
        ensures programs { (A.state array.new).programs ≡ (A.state array.old).programs }
        ensures few { (A.state array.old).count < 2 → (result ≡ Err BadImage) × (A.state array.new ≡ A.state array.old) }
        ensures ends { StartEnds (A.state array.old) (A.state array.new) result }
        ensures known { IfOk result (λ intent. IsSome intent.gate) }
        ensures calls { (rest : List PageCall) (last : ArrayState) (ok : Bool) → IsOk result → Makes rest (A.state array.new) last ok → Makes (Fetch 0 ∷ Fetch 1 ∷ rest) (A.state array.old) last ok }
        ensures failed { (rest : List PageCall) → IsErr result → (IsErrOf result BadImage → ⊥) → Makes (Fetch 0 ∷ Fetch 1 ∷ rest) (A.state array.old) (A.state array.new) false }
    {
        if array.pages() < 2 {
            return Err(StartEnd::BadImage);
        }
        let mut first = Block([0; 512]);
        fetch(array, 0, &mut first)?;
        let mut second = Block([0; 512]);
        fetch(array, 1, &mut second)?;
        judge(&first, &second, array.pages()).ok_or(StartEnd::BadImage)
    }

    /// The number of sectors of the image.
    pub fn sectors(&self) -> u32
        ensures value { result ≡ self.now.sectors }
        ensures some { 1 ≤ result }
        ensures most { result ≤ 65536 }
    {
        self.sectors
    }

    /// Reads a sector. It programs nothing. After an error the block has any contents. `Flash` and `PowerLost` come only
    /// where the array failed in this call or lost power, here as in the other calls.
    #[tactic(auto, using(crate::proofs::StepLemmas::read_place))]
    pub fn read<A: Array>(
        &mut self,
        sector: u32,
        block: &mut Block,
        array: &mut A,
    ) -> Result<(), StoreEnd>
        requires sector { sector < self.old.sectors }
        requires stands { IntentStands self.old (A.state array.old) }
        ensures stands { IntentStands self.new (A.state array.new) }
        ensures sectors { self.new.sectors ≡ self.old.sectors }
        ensures read { OnOk result (HasPage (shown_by (A.state array.old)) sector block.new) }
        ensures same { A.state array.new ≡ record (A.state array.old) { faults = (A.state array.new).faults; fetches = (A.state array.new).fetches } }
        ensures ends { StoreEnds (A.state array.old) (A.state array.new) result }
        ensures off { IsRefusedOff (A.state array.old) (A.state array.new) result }
        ensures calls { (A.state array.old).powered ≡ true → MakesFor self.old.gate (reading sector) (A.state array.old) (A.state array.new) (is_ok result) }
    {
        let page = page_of(self.look(array)?, sector);
        fetch(array, page, block)
    }

    /// Programs a sector in place. After an error each granule of it is old or new. A gate that is ajar is finished before.
    #[tactic(auto, using(crate::proofs::StepLemmas::same_torn))]
    pub fn program<A: Array>(
        &mut self,
        sector: u32,
        block: &Block,
        array: &mut A,
    ) -> Result<(), StoreEnd>
        requires sector { sector < self.old.sectors }
        requires stands { IntentStands self.old (A.state array.old) }
        ensures stands { IntentStands self.new (A.state array.new) }
        ensures sectors { self.new.sectors ≡ self.old.sectors }
        ensures ok { OnOk result (shown_by (A.state array.new) ≡ with_page (shown_by (A.state array.old)) sector block.now) }
        ensures torn { OnErr result (IsTorn (shown_by (A.state array.old)) sector block.now (shown_by (A.state array.new))) }
        ensures ends { StoreEnds (A.state array.old) (A.state array.new) result }
        ensures off { IsRefusedOff (A.state array.old) (A.state array.new) result }
        ensures calls { (A.state array.old).powered ≡ true → MakesFor self.old.gate (programming sector) (A.state array.old) (A.state array.new) (is_ok result) }
    {
        self.close(array)?;
        self.put(sector, block, array)
    }

    /// Programs a sector so that at every moment it is old or new as a whole: the intent page, the gate ajar, the sector's
    /// page, the gate shut. A gate that is ajar is finished before.
    pub fn program_whole<A: Array>(
        &mut self,
        sector: u32,
        block: &Block,
        array: &mut A,
    ) -> Result<(), StoreEnd>
        requires sector { sector < self.old.sectors }
        requires stands { IntentStands self.old (A.state array.old) }
        ensures stands { IntentStands self.new (A.state array.new) }
        ensures sectors { self.new.sectors ≡ self.old.sectors }
        ensures ok { OnOk result (shown_by (A.state array.new) ≡ with_page (shown_by (A.state array.old)) sector block.now) }
        ensures either { IsOldOrNew (shown_by (A.state array.old)) sector block.now (shown_by (A.state array.new)) }
        ensures ends { StoreEnds (A.state array.old) (A.state array.new) result }
        ensures off { IsRefusedOff (A.state array.old) (A.state array.new) result }
        ensures calls { (A.state array.old).powered ≡ true → MakesFor self.old.gate (replacing sector) (A.state array.old) (A.state array.new) (is_ok result) }
    {
        self.close(array)?;
        self.offer(sector, block, array)?;
        self.finish(sector, block, array)
    }

    // The gate, fetched where it is in doubt.
    fn look<A: Array>(&mut self, array: &mut A) -> Result<Gate, StoreEnd>
        requires { IntentStands self.old (A.state array.old) }
        ensures stands { IntentStands self.new (A.state array.new) }
        ensures sectors { self.new.sectors ≡ self.old.sectors }
        ensures gate { IfOk result (λ gate. self.new.gate ≡ Some gate) }
        ensures within { IfOk result (λ gate. gate_number gate ≤ self.new.sectors) }
        ensures most { self.new.sectors ≤ 65536 }
        ensures same { A.state array.new ≡ record (A.state array.old) { faults = (A.state array.new).faults; fetches = (A.state array.new).fetches } }
        ensures ends { StoreEnds (A.state array.old) (A.state array.new) result }
        ensures off { (A.state array.old).powered ≡ false → A.state array.new ≡ A.state array.old }
        ensures looked { (A.state array.old).powered ≡ true → Makes (looking self.old.gate) (A.state array.old) (A.state array.new) (is_ok result) }
        ensures calls { IsSome self.old.gate → (IfOk result (λ gate. self.old.gate ≡ Some gate)) × (is_ok result ≡ true) × ((A.state array.new) ≡ (A.state array.old)) }
    {
        if let Some(gate) = self.gate {
            return Ok(gate);
        }
        let mut block = Block([0; 512]);
        fetch(array, 1, &mut block)?;
        let gate = gate_in(&block, self.sectors);
        self.gate = Some(gate);
        Ok(gate)
    }

    // Programs the gate. After an error it is in doubt.
    fn turn<A: Array>(&mut self, gate: Gate, array: &mut A) -> Result<(), StoreEnd>
        requires room { 8 + self.old.sectors ≤ (A.state array.old).count }
        requires within { gate_number gate ≤ self.old.sectors }
        ensures known { self.new ≡ after_gate self.old.sectors gate result }
        ensures written { IsWritten (A.state array.old).told 1 (page_of (gate_head (gate_number gate))) (A.state array.new).told result }
        ensures ends { StoreEnds (A.state array.old) (A.state array.new) result }
        ensures off { IsRefusedOff (A.state array.old) (A.state array.new) result }
        ensures calls { (A.state array.old).powered ≡ true → IsCall (Program 1) (A.state array.old) (A.state array.new) result }
    {
        prove!(self.sectors <= 65536);
        let done = program(array, 1, &write_gate(gate));
        self.gate = if done.is_ok() { Some(gate) } else { None };
        done
    }

    // Finishes a gate that is ajar.
    fn close<A: Array>(&mut self, array: &mut A) -> Result<(), StoreEnd>
        requires { IntentStands self.old (A.state array.old) }
        ensures stands { IntentStands self.new (A.state array.new) }
        ensures sectors { self.new.sectors ≡ self.old.sectors }
        ensures shut { OnOk result (self.new.gate ≡ Some Shut) }
        ensures shown { shown_by (A.state array.new) ≡ shown_by (A.state array.old) }
        ensures ends { StoreEnds (A.state array.old) (A.state array.new) result }
        ensures off { (A.state array.old).powered ≡ false → A.state array.new ≡ A.state array.old }
        ensures calls { (gate : Gate) → self.old.gate ≡ Some gate → (A.state array.old).powered ≡ true → Makes (finishing gate) (A.state array.old) (A.state array.new) (is_ok result) }
        ensures finished { (A.state array.old).powered ≡ true → MakesFor self.old.gate finishing (A.state array.old) (A.state array.new) (is_ok result) }
    {
        match self.look(array)? {
            Gate::Shut => Ok(()),
            Gate::Ajar(sector) => self.fetch_and_finish(sector, array),
        }
    }

    // Fetches the intent page and finishes the gate.
    fn fetch_and_finish<A: Array>(&mut self, sector: u32, array: &mut A) -> Result<(), StoreEnd>
        requires sector { sector < self.old.sectors }
        requires ajar { self.old.gate ≡ Some (Ajar sector) }
        requires stands { IntentStands self.old (A.state array.old) }
        ensures stands { IntentStands self.new (A.state array.new) }
        ensures sectors { self.new.sectors ≡ self.old.sectors }
        ensures shut { OnOk result (self.new.gate ≡ Some Shut) }
        ensures shown { shown_by (A.state array.new) ≡ shown_by (A.state array.old) }
        ensures ends { StoreEnds (A.state array.old) (A.state array.new) result }
        ensures off { IsRefusedOff (A.state array.old) (A.state array.new) result }
        ensures calls { (A.state array.old).powered ≡ true → Makes (finishing (Ajar sector)) (A.state array.old) (A.state array.new) (is_ok result) }
    {
        let mut block = Block([0; 512]);
        fetch(array, 2, &mut block)?;
        self.finish(sector, &block, array)
    }

    // Programs the sector for which the gate is ajar, and then the gate shut. The block is what the intent page is.
    fn finish<A: Array>(
        &mut self,
        sector: u32,
        block: &Block,
        array: &mut A,
    ) -> Result<(), StoreEnd>
        requires sector { sector < self.old.sectors }
        requires ajar { self.old.gate ≡ Some (Ajar sector) }
        requires intent { HasPage (A.state array.old).told 2 block.now }
        requires stands { IntentStands self.old (A.state array.old) }
        ensures stands { IntentStands self.new (A.state array.new) }
        ensures sectors { self.new.sectors ≡ self.old.sectors }
        ensures shut { OnOk result (self.new.gate ≡ Some Shut) }
        ensures shown { shown_by (A.state array.new) ≡ shown_by (A.state array.old) }
        ensures ends { StoreEnds (A.state array.old) (A.state array.new) result }
        ensures off { IsRefusedOff (A.state array.old) (A.state array.new) result }
        ensures calls { (A.state array.old).powered ≡ true → Makes (Program (8 + sector) ∷ Program 1 ∷ []) (A.state array.old) (A.state array.new) (is_ok result) }
    {
        self.move_in(sector, block, array)?;
        self.shut(array)
    }

    // Programs the sector for which the gate is ajar. The block is what the intent page is.
    fn move_in<A: Array>(&self, sector: u32, block: &Block, array: &mut A) -> Result<(), StoreEnd>
        requires sector { sector < self.now.sectors }
        requires ajar { self.now.gate ≡ Some (Ajar sector) }
        requires intent { HasPage (A.state array.old).told 2 block.now }
        requires stands { IntentStands self.now (A.state array.old) }
        ensures stands { IntentStands self.now (A.state array.new) }
        ensures moved { OnOk result (IsMoved self.now.gate (A.state array.new).told) }
        ensures shown { shown_by (A.state array.new) ≡ shown_by (A.state array.old) }
        ensures ends { StoreEnds (A.state array.old) (A.state array.new) result }
        ensures off { IsRefusedOff (A.state array.old) (A.state array.new) result }
        ensures calls { (A.state array.old).powered ≡ true → IsCall (Program (8 + sector)) (A.state array.old) (A.state array.new) result }
    {
        prove!(sector < self.sectors);
        program(array, 8 + sector, block)
    }

    // Programs the gate shut.
    fn shut<A: Array>(&mut self, array: &mut A) -> Result<(), StoreEnd>
        requires moved { IsMoved self.old.gate (A.state array.old).told }
        requires known { IsSome self.old.gate }
        requires stands { IntentStands self.old (A.state array.old) }
        ensures stands { IntentStands self.new (A.state array.new) }
        ensures sectors { self.new.sectors ≡ self.old.sectors }
        ensures shut { OnOk result (self.new.gate ≡ Some Shut) }
        ensures shown { shown_by (A.state array.new) ≡ shown_by (A.state array.old) }
        ensures ends { StoreEnds (A.state array.old) (A.state array.new) result }
        ensures off { IsRefusedOff (A.state array.old) (A.state array.new) result }
        ensures calls { (A.state array.old).powered ≡ true → Makes (Program 1 ∷ []) (A.state array.old) (A.state array.new) (is_ok result) }
    {
        self.turn(Gate::Shut, array)
    }

    // Programs the intent page, and then the gate ajar for the sector.
    #[tactic(auto, using(crate::proofs::StepLemmas::intent_shown))]
    fn offer<A: Array>(&mut self, sector: u32, block: &Block, array: &mut A) -> Result<(), StoreEnd>
        requires sector { sector < self.old.sectors }
        requires shut { self.old.gate ≡ Some Shut }
        requires stands { IntentStands self.old (A.state array.old) }
        ensures stands { IntentStands self.new (A.state array.new) }
        ensures sectors { self.new.sectors ≡ self.old.sectors }
        ensures ajar { OnOk result (self.new.gate ≡ Some (Ajar sector)) }
        ensures intent { OnOk result (HasPage (A.state array.new).told 2 block.now) }
        ensures ok { OnOk result (shown_by (A.state array.new) ≡ with_page (shown_by (A.state array.old)) sector block.now) }
        ensures either { IsOldOrNew (shown_by (A.state array.old)) sector block.now (shown_by (A.state array.new)) }
        ensures ends { StoreEnds (A.state array.old) (A.state array.new) result }
        ensures off { IsRefusedOff (A.state array.old) (A.state array.new) result }
        ensures calls { (A.state array.old).powered ≡ true → Makes (Program 2 ∷ Program 1 ∷ []) (A.state array.old) (A.state array.new) (is_ok result) }
    {
        self.keep(block, array)?;
        self.open(sector, array)
    }

    // Programs the intent page.
    fn keep<A: Array>(&self, block: &Block, array: &mut A) -> Result<(), StoreEnd>
        requires shut { self.now.gate ≡ Some Shut }
        requires stands { IntentStands self.now (A.state array.old) }
        ensures stands { IntentStands self.now (A.state array.new) }
        ensures intent { OnOk result (HasPage (A.state array.new).told 2 block.now) }
        ensures shown { shown_by (A.state array.new) ≡ shown_by (A.state array.old) }
        ensures ends { StoreEnds (A.state array.old) (A.state array.new) result }
        ensures off { IsRefusedOff (A.state array.old) (A.state array.new) result }
        ensures calls { (A.state array.old).powered ≡ true → IsCall (Program 2) (A.state array.old) (A.state array.new) result }
    {
        program(array, 2, block)
    }

    // Programs the gate ajar: the intent page is shown in place of the sector.
    fn open<A: Array>(&mut self, sector: u32, array: &mut A) -> Result<(), StoreEnd>
        requires sector { sector < self.old.sectors }
        requires shut { self.old.gate ≡ Some Shut }
        requires stands { IntentStands self.old (A.state array.old) }
        ensures stands { IntentStands self.new (A.state array.new) }
        ensures sectors { self.new.sectors ≡ self.old.sectors }
        ensures ajar { OnOk result (self.new.gate ≡ Some (Ajar sector)) }
        ensures intent { intent_by (A.state array.new) ≡ intent_by (A.state array.old) }
        ensures ok { OnOk result (shown_by (A.state array.new) ≡ with_intent (A.state array.old).told sector) }
        ensures either { (shown_by (A.state array.new) ≡ shown_by (A.state array.old)) ⊎ (shown_by (A.state array.new) ≡ with_intent (A.state array.old).told sector) }
        ensures ends { StoreEnds (A.state array.old) (A.state array.new) result }
        ensures off { IsRefusedOff (A.state array.old) (A.state array.new) result }
        ensures calls { (A.state array.old).powered ≡ true → IsCall (Program 1) (A.state array.old) (A.state array.new) result }
    {
        self.turn(Gate::Ajar(sector), array)
    }

    // Programs a sector while the gate is shut.
    fn put<A: Array>(&self, sector: u32, block: &Block, array: &mut A) -> Result<(), StoreEnd>
        requires sector { sector < self.now.sectors }
        requires shut { self.now.gate ≡ Some Shut }
        requires stands { IntentStands self.now (A.state array.old) }
        ensures stands { IntentStands self.now (A.state array.new) }
        ensures ok { OnOk result (shown_by (A.state array.new) ≡ with_page (shown_by (A.state array.old)) sector block.now) }
        ensures torn { IsTorn (shown_by (A.state array.old)) sector block.now (shown_by (A.state array.new)) }
        ensures ends { StoreEnds (A.state array.old) (A.state array.new) result }
        ensures off { IsRefusedOff (A.state array.old) (A.state array.new) result }
        ensures calls { (A.state array.old).powered ≡ true → IsCall (Program (8 + sector)) (A.state array.old) (A.state array.new) result }
    {
        prove!(sector < self.sectors);
        program(array, 8 + sector, block)
    }
}

// The page that a sector is read from.
fn page_of(gate: Gate, sector: u32) -> u32
    requires { sector < 65536 }
    ensures { result ≡ place_of gate sector }
{
    match gate {
        Gate::Ajar(ajar) if ajar == sector => 2,
        _ => 8 + sector,
    }
}

// The gate that page 1 tells. A page that is no gate counts as shut.
fn gate_in(block: &Block, sectors: u32) -> Gate
    ensures is { GateIn block.now sectors result }
    ensures within { gate_number result ≤ sectors }
{
    read_gate(block, sectors).unwrap_or(Gate::Shut)
}

// What page 0 and page 1 tell of an image on so many pages. None comes exactly where they are no image.
fn judge(first: &Block, second: &Block, pages: u32) -> Option<Intent>
    ensures some { IfSome result (IsOpening first.now second.now pages) }
    ensures none { (known : Known) → IsOpening first.now second.now pages known → IsNone result → ⊥ }
{
    let found = read_super(first)?;
    let gate = read_gate(second, found.sectors)?;
    if pages < 8 + found.sectors {
        return None;
    }
    Some(Intent {
        sectors: found.sectors,
        gate: Some(gate),
    })
}
