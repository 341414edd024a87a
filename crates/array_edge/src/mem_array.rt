ghost use Rattle.std.specs.Prelude.{◌≡◌, ◌||◌, ◌<◌, ◌^◌, true, false, is_ok, length, IfSome, OnOk, OnErr, Some, refl};
ghost use Rattle.storage_model.specs.Count.{RaisedByOne};
ghost use Rattle.array_edge.specs.Array.{Ends, HasPage, IsTorn, IsUnsettled, with_page};
ghost use Rattle.array_edge.specs.Hits.{hit_of, raised};
ghost use Rattle.array_edge.specs.Memory.{Memory, MemoryFetched, MemoryProgrammed, array_of};

use crate::array::{Array, ArrayEnd};
use crate::hits::{find_hit, masked};
use std::marker::Model;
use storage_model::{ArrayHit, ArrayHits, Block, BlockList};

/// An array in memory that tells its pages. The calls of its list fail or are cut, and no others.
#[derive(Debug, Drop)]
pub struct MemArray {
    pages: BlockList,
    hits: ArrayHits,
    powered: bool,
    faults: u64,
    cuts: u64,
    programs: u64,
    fetches: u64,
    settled: bool,
}

impl Model for MemArray {
    ghost Value = { Memory };

    ghost view = { λ m. record { pages = m.pages; hits = m.hits; powered = m.powered; faults = m.faults; cuts = m.cuts; programs = m.programs; fetches = m.fetches; settled = m.settled } };

    ghost invariant = { λ m. length m.pages < 2 ^ 32 };
}

impl MemArray {
    /// An array of these pages, of which there are fewer than 2^32, with its power off. `hits` says which calls fail or
    /// are cut, by their numbers among the fetches or the programs with the power on, counted from 1, in any order; of
    /// two faults of one call the first counts, and a fetch is never cut.
    pub fn over(pages: BlockList, hits: ArrayHits) -> MemArray
        requires { length pages < 2 ^ 32 }
        ensures { result ≡ record { pages = pages; hits = hits; powered = false; faults = 0; cuts = 0; programs = 0; fetches = 0; settled = false } }
    {
        MemArray {
            pages,
            hits,
            powered: false,
            faults: 0,
            cuts: 0,
            programs: 0,
            fetches: 0,
            settled: false,
        }
    }

    /// The pages as they are now.
    pub fn contents(&self) -> &BlockList
        ensures { result.now ≡ self.now.pages }
    {
        &self.pages
    }

    /// The pages as they are now, taken out of the array.
    pub fn into_pages(self) -> BlockList
        ensures { result ≡ self.pages }
    {
        self.pages
    }

    /// A program that a fault befalls: the page is left with the granules of its mask new.
    fn break_program(&mut self, hit: ArrayHit, page: u32, block: &Block) -> ArrayEnd
        requires { page < length self.old.pages }
        ensures { MemoryProgrammed (Some hit) self.old page block.now self.new (Err result) }
    {
        let left = masked(hit.mask, self.pages.at(page as usize), block);
        self.pages.set(page as usize, left);
        self.programs = self.programs.saturating_add(1);
        self.settled = false;
        if hit.cut {
            self.cuts = self.cuts.saturating_add(1);
            self.powered = false;
            ArrayEnd::PowerLost
        } else {
            self.faults = self.faults.saturating_add(1);
            ArrayEnd::Failed
        }
    }
}

impl Array for MemArray {
    ghost state = { array_of };

    ghost told_count = { λ _. refl };

    fn pages(&self) -> u32 {
        self.pages.len() as u32
    }

    fn fetch(&mut self, page: u32, block: &mut Block) -> Result<(), ArrayEnd>
        requires { page < length self.old.pages }
        ensures read { OnOk result (HasPage (array_of self.old).told page block.new) }
        ensures same { array_of self.new ≡ record (array_of self.old) { faults = (array_of self.new).faults; fetches = (array_of self.new).fetches } }
        ensures number { (array_of self.old).powered ≡ true → RaisedByOne (array_of self.old).fetches (array_of self.new).fetches }
        ensures ends { Ends (array_of self.old) (array_of self.new) result }
        ensures met { self.old.powered ≡ true → MemoryFetched (hit_of self.old.hits true (raised self.old.fetches)) self.old self.new result }
        ensures kept { self.old.powered ≡ false → self.new ≡ self.old }
    {
        if !self.powered {
            return Err(ArrayEnd::PowerLost);
        }
        self.fetches = self.fetches.saturating_add(1);
        if find_hit(&self.hits, true, self.fetches).is_some() {
            self.faults = self.faults.saturating_add(1);
            return Err(ArrayEnd::Failed);
        }
        *block = *self.pages.at(page as usize);
        Ok(())
    }

    fn program(&mut self, page: u32, block: &Block) -> Result<(), ArrayEnd>
        requires { page < length self.old.pages }
        ensures written { OnOk result ((array_of self.new).told ≡ with_page (array_of self.old).told page block.now) }
        ensures torn { OnErr result (IsTorn (array_of self.old).told page block.now (array_of self.new).told) }
        ensures same { array_of self.new ≡ record (array_of self.new) { count = (array_of self.old).count; fetches = (array_of self.old).fetches } }
        ensures unsettled { IsUnsettled (array_of self.old) (array_of self.new) result }
        ensures number { (array_of self.old).powered ≡ true → RaisedByOne (array_of self.old).programs (array_of self.new).programs }
        ensures ends { Ends (array_of self.old) (array_of self.new) result }
        ensures met { self.old.powered ≡ true → MemoryProgrammed (hit_of self.old.hits false (raised self.old.programs)) self.old page block.now self.new result }
        ensures kept { self.old.powered ≡ false → self.new ≡ self.old }
    {
        if !self.powered {
            return Err(ArrayEnd::PowerLost);
        }
        match find_hit(&self.hits, false, self.programs.saturating_add(1)) {
            Some(hit) => Err(self.break_program(hit, page, block)),
            None => {
                self.programs = self.programs.saturating_add(1);
                self.pages.set(page as usize, *block);
                self.settled = false;
                Ok(())
            }
        }
    }

    fn settle(&mut self) -> Result<(), ArrayEnd>
        ensures same { array_of self.new ≡ record (array_of self.old) { faults = (array_of self.new).faults; settled = is_ok result || (array_of self.old).settled } }
        ensures ends { Ends (array_of self.old) (array_of self.new) result }
        ensures ok { self.old.powered ≡ true → OnErr result ⊥ }
        ensures kept { self.new ≡ record self.old { settled = self.old.powered || self.old.settled } }
    {
        if !self.powered {
            return Err(ArrayEnd::PowerLost);
        }
        self.settled = true;
        Ok(())
    }

    fn power_on(&mut self)
        ensures state { array_of self.new ≡ record (array_of self.old) { powered = true } }
        ensures kept { self.new ≡ record self.old { powered = true } }
    {
        self.powered = true;
    }
}
