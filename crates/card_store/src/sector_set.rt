ghost use Rattle.std.specs.Prelude.{◌≡◌, ◌⊎◌, ◌+◌, ◌<◌, ◌≤◌, ℕ, true, false, slice_index_or, slice_set, IfOk, length};
ghost use Rattle.card_store.specs.Store.{IsFirstFrom, Says, none};

use std::alloc::Global;
use std::marker::Model;
use storage_model::NoMemory;

// As many sectors as an image has at most.
const MOST: usize = 65536;

/// For each sector that an image may have, whether it is in the set. All memory is taken at the start.
#[derive(Debug, Drop)]
pub struct SectorSet {
    has: Vec<bool>,
}

impl Model for SectorSet {
    ghost use Rattle.std.specs.Prelude.{◌≡◌, Bool, List, length};

    ghost Value = { List Bool };

    ghost view = { λ s. s.has.items };

    ghost invariant = { λ s. length s.has.items ≡ 65536 };
}

impl SectorSet {
    /// The empty set. The only error is want of memory.
    pub fn start(alloc: Global) -> Result<SectorSet, NoMemory>
        ensures { IfOk result (λ set. Says set none) }
    {
        Ok(SectorSet {
            has: vec![in alloc; false; MOST]?,
        })
    }

    pub fn has(&self, sector: u32) -> bool
        requires { sector < 65536 }
        ensures { result ≡ slice_index_or self.now sector false }
    {
        self.has[sector as usize]
    }

    /// The first sector of the set from `from` on, and in front of `end`.
    pub fn first_from(&self, from: u32, end: u32) -> Option<u32>
        requires { end ≤ 65536 }
        ensures { IsFirstFrom (λ s. slice_index_or self.now s false) from end result }
    {
        for sector in from..end {
            if self.has(sector) {
                return Some(sector);
            }
        }
        None
    }

    pub fn insert(&mut self, sector: u32)
        requires { sector < 65536 }
        ensures value { self.new ≡ slice_set self.old sector true }
        ensures size { length self.old ≡ 65536 }
    {
        self.has[sector as usize] = true;
    }

    pub fn remove(&mut self, sector: u32)
        requires { sector < 65536 }
        ensures value { self.new ≡ slice_set self.old sector false }
        ensures size { length self.old ≡ 65536 }
    {
        self.has[sector as usize] = false;
    }

    pub fn clear(&mut self)
        ensures { Says self.new none }
    {
        for has in self.has.iter_mut() {
            *has = false;
        }
    }

    /// Makes it the other set.
    pub fn copy_from(&mut self, other: &SectorSet)
        ensures { self.new ≡ other.now }
    {
        self.has.copy_from_slice(&other.has);
    }

    /// Takes the `blocks` sectors from `first` on out.
    pub fn remove_all(&mut self, first: u32, blocks: u16)
        requires { first + blocks ≤ 65536 }
        ensures named { (s : ℕ) → first ≤ s → s < first + blocks → slice_index_or self.new s false ≡ false }
        ensures others { (s : ℕ) → (s < first) ⊎ (first + blocks ≤ s) → slice_index_or self.new s false ≡ slice_index_or self.old s false }
    {
        for sector in first..first + u32::from(blocks) {
            self.remove(sector);
        }
    }
}
