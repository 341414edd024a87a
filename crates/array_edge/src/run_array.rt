ghost use Rattle.std.specs.Prelude.{◌≡◌, None, false, List, []};
ghost use Rattle.storage_model.specs.Count.{count_of};
ghost use Rattle.storage_model.specs.Faults.{IsValidArrayHits};
ghost use Rattle.array_edge.specs.Array.{ArrayState};
ghost use Rattle.array_edge.specs.Script.{HasMet, HasRun, Script, script_over};
ghost use Rattle.storage_model.specs.declared.faults.ArrayHit.{ArrayHit};

use crate::array::{Array, ArrayEnd};
use crate::script_array::ScriptArray;
use std::marker::{Brand, Model, PhantomData};
use storage_model::Block;

/// What an array was when a run over it began. A proof picks it where the code passes `Brand`.
pub trait RunStart {
    ghost start: { ArrayState };

    ghost hits: { List ArrayHit };
}

impl RunStart for Brand {
    ghost start = { record { told = None; count = 0; powered = false; faults = count_of 0; cuts = count_of 0; programs = count_of 0; fetches = count_of 0; settled = false } };

    ghost hits = { [] };
}

/// A script whose calls are bounded by what its inner array was at the start of the run, whoever makes them.
#[derive(Drop)]
pub struct RunArray<A: Array, S: RunStart> {
    script: ScriptArray<A>,
    start: PhantomData<S>,
}

impl<A: Array, S: RunStart> Model for RunArray<A, S> {
    ghost Value = { Script A };

    ghost view = { λ r. r.script };

    ghost invariant = { λ r. HasRun S.start (A.state r.script.inner) r.script.hits r.script.programs r.script.fetches × HasMet S.start (A.state r.script.inner) r.script.hits r.script.faults r.script.cuts r.script.programs r.script.fetches × (r.script.hits ≡ S.hits) };
}

impl<A: Array, S: RunStart> RunArray<A, S> {
    /// The script at the start of the run.
    pub fn over(script: ScriptArray<A>) -> RunArray<A, S>
        requires start { A.state script.inner ≡ S.start }
        requires hits { script.hits ≡ S.hits }
        requires valid { IsValidArrayHits script.hits }
        requires fresh { (script.programs ≡ 0) × (script.fetches ≡ 0) × (script.faults ≡ 0) × (script.cuts ≡ 0) }
        ensures { result ≡ script }
    {
        RunArray {
            script,
            start: PhantomData,
        }
    }

    /// The script as it is now.
    pub fn back(self) -> ScriptArray<A>
        ensures script { result ≡ self }
        ensures run { HasRun S.start (A.state self.inner) self.hits self.programs self.fetches }
        ensures met { HasMet S.start (A.state self.inner) self.hits self.faults self.cuts self.programs self.fetches }
        ensures hits { self.hits ≡ S.hits }
    {
        self.script
    }
}

impl<A: Array, S: RunStart> Array for RunArray<A, S> {
    ghost state = { script_over A.state };

    ghost told_count = { λ s. A.told_count s.inner };

    fn pages(&self) -> u32 {
        self.script.pages()
    }

    fn fetch(&mut self, page: u32, block: &mut Block) -> Result<(), ArrayEnd> {
        self.script.fetch(page, block)
    }

    fn program(&mut self, page: u32, block: &Block) -> Result<(), ArrayEnd> {
        self.script.program(page, block)
    }

    fn settle(&mut self) -> Result<(), ArrayEnd> {
        self.script.settle()
    }

    fn power_on(&mut self) {
        self.script.power_on();
    }
}
