ghost use Rattle.std.specs.Prelude.{◌≡◌, None, false, List, []};
ghost use Rattle.storage_model.specs.Count.{count_of};
ghost use Rattle.storage_model.specs.declared.faults.ArrayHit.{ArrayHit};
ghost use Rattle.array_edge.specs.Array.{ArrayState};
ghost use Rattle.array_edge.specs.Script.{HasRun, Script, script_over};
ghost use Rattle.rest_array.specs.Rest.{CountsOn, IsRest};

use array_edge::{Array, ArrayEnd, ScriptArray};
use std::marker::{Brand, Model, PhantomData};
use storage_model::Block;

/// What an array was when a run over it began, and at a moment of the run. A proof picks them where the code passes `Brand`.
pub trait RestStart {
    ghost start: { ArrayState };

    ghost moment: { ArrayState };

    ghost hits: { List ArrayHit };
}

impl RestStart for Brand {
    ghost start = { record { told = None; count = 0; powered = false; faults = count_of 0; cuts = count_of 0; programs = count_of 0; fetches = count_of 0; settled = false } };

    ghost moment = { record { told = None; count = 0; powered = false; faults = count_of 0; cuts = count_of 0; programs = count_of 0; fetches = count_of 0; settled = false } };

    ghost hits = { [] };
}

/// A script behind a moment of its run. Its calls stay bounded by what its inner array was at the start of the run, and no count of that
/// falls behind the moment, whoever makes the calls.
#[derive(Drop)]
pub struct RestArray<A: Array, S: RestStart> {
    script: ScriptArray<A>,
    start: PhantomData<S>,
}

impl<A: Array, S: RestStart> Model for RestArray<A, S> {
    ghost Value = { Script A };

    ghost view = { λ r. r.script };

    ghost invariant = { λ r. IsRest S.start S.moment (A.state r.script.inner) S.hits r.script.hits r.script.programs r.script.fetches };
}

impl<A: Array, S: RestStart> RestArray<A, S> {
    /// The script at the moment.
    pub fn behind(script: ScriptArray<A>) -> RestArray<A, S>
        requires moment { A.state script.inner ≡ S.moment }
        requires hits { script.hits ≡ S.hits }
        requires run { HasRun S.start (A.state script.inner) script.hits script.programs script.fetches }
        ensures { result ≡ script }
    {
        RestArray {
            script,
            start: PhantomData,
        }
    }

    /// The script as it is now.
    pub fn back(self) -> ScriptArray<A>
        ensures script { result ≡ self }
        ensures run { HasRun S.start (A.state self.inner) self.hits self.programs self.fetches }
        ensures on { CountsOn S.moment (A.state self.inner) }
        ensures hits { self.hits ≡ S.hits }
    {
        self.script
    }
}

impl<A: Array, S: RestStart> Array for RestArray<A, S> {
    ghost state = { script_over A.state };

    ghost told_count = { λ s. A.told_count s.inner };

    fn pages(&self) -> u32 {
        self.script.pages()
    }

    fn fetch(&mut self, page: u32, block: &mut Block) -> Result<(), ArrayEnd> {
        self.script.fetch(page, block)
    }

    fn program(&mut self, page: u32, block: &Block) -> Result<(), ArrayEnd> {
        self.script.program(page, block)
    }

    fn settle(&mut self) -> Result<(), ArrayEnd> {
        self.script.settle()
    }

    fn power_on(&mut self) {
        self.script.power_on();
    }
}
