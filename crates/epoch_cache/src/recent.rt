// Where the newest line of each sector stands.
ghost use Rattle.std.specs.Prelude.{◌≡◌, ◌+◌, ◌*◌, ◌<◌, ◌≤◌, ◌^◌, ◌-◌, ◌==◌, ℕ, IfOk, IsTrue, None, Some, if◌then◌else◌};
ghost use Rattle.indexmap.specs.IndexMap.{index_map_len, spare};
ghost use Rattle.epoch_cache.specs.Recent.{place_in};

use indexmap::IndexMap;
use std::alloc::Global;
use storage_model::NoMemory;

/// The newest line of each sector by its number. Lines are numbered in order as they come; the oldest line held has the number
/// `first`, and a number below that is of a line that went.
#[derive(Debug, Drop)]
pub struct Recent {
    places: IndexMap<u32, u64>,
    first: u64,
}

impl Recent {
    /// No sector has a line. There is room for twice as many sectors as lines fit, so that few of the calls of `mark` find none.
    pub fn start(alloc: Global, lines: u16) -> Result<Recent, NoMemory>
        ensures none { IfOk result (λ recent. (s : ℕ) → place_in recent.places recent.first s ≡ None) }
        ensures room { IfOk result (λ recent. 2 * lines ≤ index_map_len recent.places + spare recent.places) }
        ensures first { IfOk result (λ recent. recent.first ≡ 0) }
    {
        let places = IndexMap::with_capacity(alloc, 2 * usize::from(lines))?;
        Ok(Recent { places, first: 0 })
    }

    /// The place in order of the sector's newest line.
    pub fn place(&self, sector: u32) -> Option<u64>
        ensures { result ≡ place_in self.now.places self.now.first sector }
    {
        let number = *self.places.get(&sector)?;
        if number < self.first {
            None
        } else {
            Some(number - self.first)
        }
    }

    /// The number of the oldest line held.
    pub fn first(&self) -> u64
        ensures { result ≡ self.now.first }
    {
        self.first
    }

    /// Forgets all sectors.
    pub fn clear(&mut self)
        ensures none { (s : ℕ) → place_in self.new.places self.new.first s ≡ None }
        ensures room { index_map_len self.old.places + spare self.old.places ≤ spare self.new.places }
        ensures first { self.new.first ≡ 0 }
    {
        self.places.clear();
        self.first = 0;
    }

    /// The oldest line went: each other stands one place further to the front.
    pub fn shift(&mut self)
        requires { self.old.first < 2 ^ 64 - 1 }
        ensures { self.new ≡ record self.old { first = self.old.first + 1 } }
    {
        self.first += 1;
    }

    /// The sector's newest line stands at a place. It takes no memory: where there is no room for the sector, nothing changes.
    pub fn mark(&mut self, sector: u32, place: u16) -> bool
        requires { self.old.first + place < 2 ^ 64 }
        ensures marked { IsTrue result → (s : ℕ) → place_in self.new.places self.new.first s ≡ (if sector == s then Some place else place_in self.old.places self.old.first s) }
        ensures free { 0 < spare self.old.places → IsTrue result }
        ensures spare { spare self.old.places ≤ spare self.new.places + 1 }
        ensures room { index_map_len self.old.places + spare self.old.places ≤ index_map_len self.new.places + spare self.new.places }
        ensures first { self.new.first ≡ self.old.first }
    {
        let number = self.first + u64::from(place);
        if let Some(known) = self.places.get_mut(&sector) {
            *known = number;
            return true;
        }
        if self.places.len() == self.places.capacity() {
            return false;
        }
        self.places.insert(sector, number).unwrap();
        true
    }
}
