ghost use Rattle.std.specs.Prelude.{IfSome, ◌≡◌, ◌||◌, ◌<◌, ◌^◌, ◌⊎◌, true, false, Err, Ok, is_ok, OnErr, OnOk};
ghost use Rattle.storage_model.specs.Faults.{IsValidArrayHits};
ghost use Rattle.storage_model.specs.Count.{RaisedByOne};
ghost use Rattle.array_edge.specs.Array.{Ends, Fetched, HasPage, IsTorn, IsUnsettled, Programmed, Settled, with_page};
ghost use Rattle.array_edge.specs.Hits.{IsPast, IsValidHit, hit_of, raised, reached_fails};
ghost use Rattle.array_edge.specs.declared.array.ArrayEnd.TheVariants.{Failed};
ghost use Rattle.array_edge.specs.Script.{HasRoom, IsBroken, IsKept, IsUnread, IsWithinHits, Script, ScriptFetched, ScriptProgrammed, after_hit, end_of_hit, script_over};

use crate::array::{Array, ArrayEnd};
use crate::hits::{masked, meet_hit};
use std::marker::Model;
use storage_model::{ArrayHit, ArrayHits, Block};

/// An inner array over which faults are scripted: the calls of the list fail or are cut, and the others go to the inner
/// array. The power is its own: a cut of the script leaves the inner array on.
#[derive(Drop)]
pub struct ScriptArray<A: Array> {
    inner: A,
    hits: ArrayHits,
    program_place: usize,
    fetch_place: usize,
    powered: bool,
    faults: u64,
    cuts: u64,
    programs: u64,
    fetches: u64,
}

impl<A: Array> Model for ScriptArray<A> {
    ghost Value = { Script A };

    ghost view = { λ s. record { inner = s.inner; hits = s.hits; powered = s.powered; faults = s.faults; cuts = s.cuts; programs = s.programs; fetches = s.fetches } };

    ghost invariant = { λ s. IsKept (A.state s.inner) s.hits s.powered s.program_place s.fetch_place s.faults s.cuts s.programs s.fetches };
}

impl<A: Array> ScriptArray<A> {
    /// The inner array with these faults, and with its power off. The numbers of the faults count the programs and the
    /// fetches of this array with the power on, from 1, and rise among each of them; no fetch is cut.
    pub fn over(inner: A, hits: ArrayHits) -> ScriptArray<A>
        requires { IsValidArrayHits hits }
        ensures { result ≡ record { inner = inner; hits = hits; powered = false; faults = 0; cuts = 0; programs = 0; fetches = 0 } }
    {
        ScriptArray {
            inner,
            hits,
            program_place: 0,
            fetch_place: 0,
            powered: false,
            faults: 0,
            cuts: 0,
            programs: 0,
            fetches: 0,
        }
    }

    /// The inner array as it is now.
    pub fn back(self) -> A
        ensures inner { result ≡ self.inner }
        ensures within { IsWithinHits self.hits self.faults self.cuts self.programs self.fetches }
    {
        self.inner
    }

    // The fault of the next fetch, which is counted.
    fn next_fetch(&mut self) -> Option<ArrayHit>
        ensures met { result ≡ hit_of self.old.hits true (raised self.old.fetches) }
        ensures counted { self.new ≡ record self.old { fetches = raised self.old.fetches } }
        ensures hit { IfSome result (λ hit. IsValidHit true (raised self.old.fetches) hit) }
        ensures room { IfSome result (λ _. self.new.faults < reached_fails self.new.programs self.new.fetches self.new.hits) }
    {
        self.fetches = self.fetches.saturating_add(1);
        meet_hit(
            self.hits.as_slice(),
            &mut self.fetch_place,
            true,
            self.fetches,
        )
    }

    // The fault of the next program, which is counted.
    fn next_program(&mut self) -> Option<ArrayHit>
        ensures met { result ≡ hit_of self.old.hits false (raised self.old.programs) }
        ensures counted { self.new ≡ record self.old { programs = raised self.old.programs } }
        ensures room { IfSome result (λ hit. HasRoom hit self.new.hits self.new.faults self.new.cuts self.new.programs self.new.fetches) }
    {
        self.programs = self.programs.saturating_add(1);
        meet_hit(
            self.hits.as_slice(),
            &mut self.program_place,
            false,
            self.programs,
        )
    }

    fn fetch_on(&mut self, page: u32, block: &mut Block) -> Result<(), ArrayEnd>
        requires page { page < (A.state self.old.inner).count }
        ensures is { ScriptFetched A.state (hit_of self.old.hits true (raised self.old.fetches)) self.old page block.new self.new result }
        ensures hits { self.new.hits ≡ self.old.hits }
    {
        match self.next_fetch() {
            Some(_) => {
                self.faults = self.faults.saturating_add(1);
                Err(ArrayEnd::Failed)
            }
            None => self.inner.fetch(page, block),
        }
    }

    fn program_on(&mut self, page: u32, block: &Block) -> Result<(), ArrayEnd>
        requires page { page < (A.state self.old.inner).count }
        requires on { self.old.powered ≡ true }
        ensures is { ScriptProgrammed A.state (hit_of self.old.hits false (raised self.old.programs)) self.old page block.now self.new result }
        ensures hits { self.new.hits ≡ self.old.hits }
    {
        match self.next_program() {
            Some(hit) => self.break_program(hit, page, block),
            None => self.pass_program(page, block),
        }
    }

    // A program of the inner array, which may lose its power.
    fn pass_program(&mut self, page: u32, block: &Block) -> Result<(), ArrayEnd>
        requires page { page < (A.state self.old.inner).count }
        requires on { self.old.powered ≡ true }
        ensures programmed { Programmed (A.state self.old.inner) page block.now (A.state self.new.inner) result }
        ensures after { self.new ≡ record self.old { inner = self.new.inner; powered = (A.state self.new.inner).powered } }
    {
        let answer = self.inner.program(page, block);
        if let Err(ArrayEnd::PowerLost) = answer {
            self.powered = false;
        }
        answer
    }

    // A program that a fault befalls.
    fn break_program(&mut self, hit: ArrayHit, page: u32, block: &Block) -> Result<(), ArrayEnd>
        requires page { page < (A.state self.old.inner).count }
        requires on { self.old.powered ≡ true }
        requires room { HasRoom hit self.old.hits self.old.faults self.old.cuts self.old.programs self.old.fetches }
        ensures is { IsUnread A.state self.old page self.new result ⊎ IsBroken A.state hit self.old page block.now self.new result }
        ensures hits { self.new.hits ≡ self.old.hits }
    {
        let mut seen = Block([0; 512]);
        if let Err(end) = self.read_page(page, &mut seen) {
            return Err(end);
        }
        let left = masked(hit.mask, &seen, block);
        match self.pass_program(page, &left) {
            Ok(()) => Err(self.count_hit(hit)),
            Err(end) => Err(end),
        }
    }

    // A fetch of the inner array, whose power stays on.
    fn read_page(&mut self, page: u32, seen: &mut Block) -> Result<(), ArrayEnd>
        requires page { page < (A.state self.old.inner).count }
        requires on { self.old.powered ≡ true }
        ensures fetched { Fetched (A.state self.old.inner) page seen.new (A.state self.new.inner) result }
        ensures failed { OnErr result (result ≡ Err Failed) }
        ensures counter { self.old.fetches < 2 ^ 64 }
        ensures power { (A.state self.new.inner).powered ≡ true }
        ensures after { self.new ≡ record self.old { inner = self.new.inner } }
    {
        self.inner.fetch(page, seen)
    }

    // The end of a program that a fault befell.
    fn count_hit(&mut self, hit: ArrayHit) -> ArrayEnd
        requires { HasRoom hit self.old.hits self.old.faults self.old.cuts self.old.programs self.old.fetches }
        ensures end { Err result ≡ end_of_hit hit (Ok tt) }
        ensures after { self.new ≡ after_hit hit (Ok tt) self.old }
    {
        if hit.cut {
            self.cuts = self.cuts.saturating_add(1);
            self.powered = false;
            ArrayEnd::PowerLost
        } else {
            self.faults = self.faults.saturating_add(1);
            ArrayEnd::Failed
        }
    }
}

impl<A: Array> Array for ScriptArray<A> {
    ghost state = { script_over A.state };

    ghost told_count = { λ s. A.told_count s.inner };

    fn pages(&self) -> u32 {
        self.inner.pages()
    }

    fn fetch(&mut self, page: u32, block: &mut Block) -> Result<(), ArrayEnd>
        requires { page < (script_over A.state self.old).count }
        ensures read { OnOk result (HasPage (script_over A.state self.old).told page block.new) }
        ensures same { script_over A.state self.new ≡ record (script_over A.state self.old) { faults = (script_over A.state self.new).faults; fetches = (script_over A.state self.new).fetches } }
        ensures number { (script_over A.state self.old).powered ≡ true → RaisedByOne (script_over A.state self.old).fetches (script_over A.state self.new).fetches }
        ensures ends { Ends (script_over A.state self.old) (script_over A.state self.new) result }
        ensures counter { self.old.fetches < 2 ^ 64 }
        ensures power { self.old.powered ≡ true → (A.state self.old.inner).powered ≡ true }
        ensures met { self.old.powered ≡ true → ScriptFetched A.state (hit_of self.old.hits true (raised self.old.fetches)) self.old page block.new self.new result }
        ensures hits { self.new.hits ≡ self.old.hits }
        ensures kept { self.old.powered ≡ false → self.new ≡ self.old }
    {
        if !self.powered {
            return Err(ArrayEnd::PowerLost);
        }
        self.fetch_on(page, block)
    }

    fn program(&mut self, page: u32, block: &Block) -> Result<(), ArrayEnd>
        requires { page < (script_over A.state self.old).count }
        ensures written { OnOk result ((script_over A.state self.new).told ≡ with_page (script_over A.state self.old).told page block.now) }
        ensures torn { OnErr result (IsTorn (script_over A.state self.old).told page block.now (script_over A.state self.new).told) }
        ensures same { script_over A.state self.new ≡ record (script_over A.state self.new) { count = (script_over A.state self.old).count; fetches = (script_over A.state self.old).fetches } }
        ensures unsettled { IsUnsettled (script_over A.state self.old) (script_over A.state self.new) result }
        ensures number { (script_over A.state self.old).powered ≡ true → RaisedByOne (script_over A.state self.old).programs (script_over A.state self.new).programs }
        ensures ends { Ends (script_over A.state self.old) (script_over A.state self.new) result }
        ensures counter { self.old.programs < 2 ^ 64 }
        ensures power { self.old.powered ≡ true → (A.state self.old.inner).powered ≡ true }
        ensures met { self.old.powered ≡ true → ScriptProgrammed A.state (hit_of self.old.hits false (raised self.old.programs)) self.old page block.now self.new result }
        ensures hits { self.new.hits ≡ self.old.hits }
        ensures kept { self.old.powered ≡ false → self.new ≡ self.old }
    {
        if !self.powered {
            return Err(ArrayEnd::PowerLost);
        }
        self.program_on(page, block)
    }

    fn settle(&mut self) -> Result<(), ArrayEnd>
        ensures same { script_over A.state self.new ≡ record (script_over A.state self.old) { faults = (script_over A.state self.new).faults; settled = is_ok result || (script_over A.state self.old).settled } }
        ensures ends { Ends (script_over A.state self.old) (script_over A.state self.new) result }
        ensures passed { self.old.powered ≡ true → Settled (A.state self.old.inner) (A.state self.new.inner) result }
        ensures after { self.new ≡ record self.old { inner = self.new.inner } }
        ensures kept { self.old.powered ≡ false → self.new ≡ self.old }
    {
        if !self.powered {
            return Err(ArrayEnd::PowerLost);
        }
        self.inner.settle()
    }

    fn power_on(&mut self)
        ensures state { script_over A.state self.new ≡ record (script_over A.state self.old) { powered = true } }
        ensures passed { A.state self.new.inner ≡ record (A.state self.old.inner) { powered = true } }
        ensures after { self.new ≡ record self.old { inner = self.new.inner; powered = true } }
    {
        self.inner.power_on();
        self.powered = true;
    }
}
