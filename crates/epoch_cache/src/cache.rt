ghost use Rattle.std.specs.Prelude.{◌≡◌, ◌↔◌, ◌+◌, ◌-◌, ◌<◌, ◌≤◌, ◌==◌, false, true, not, [], length, drop, filter, find, IfOk, IsErr, IsSome, IsTrue, remove, take, ◌*◌, IsNone, IfSome, OnOk, OnErr, slice_get, nat_lt};
ghost use Rattle.std.specs.List.{list_any};
ghost use Rattle.std.specs.Option.{option_copied};
ghost use Rattle.indexmap.specs.IndexMap.{index_map_len, spare};
ghost use Rattle.epoch_cache.specs.Recent.{AreMarked, IsNewest};
ghost use Rattle.epoch_cache.specs.Cache.{IsCache, IsPlace, is_of, lines_with, newest_of, next_epoch, renewed};

use crate::Line;
use crate::recent::Recent;
use crate::table::LineTable;
use std::alloc::Global;
use std::marker::Model;
use storage_model::{Block, NoMemory, Put};

/// No line is free, and the sector has none in the last epoch.
#[derive(Clone, Copy, Debug, PartialEq, Eq)]
pub struct Full;

/// From this number on all lines are numbered anew.
const MOST_FIRST: u64 = 0x8000_0000_0000_0000;

/// The lines of a cache, in order of epoch and then of coming to be, at most one for each sector and epoch. All memory is
/// taken at the start. A put, a search and the oldest line's going cost the same however many lines there are.
#[derive(Debug, Drop)]
pub struct EpochCache {
    table: LineTable,
    last: u32,
    recent: Recent,
    // Whether a line went from between others since all were numbered: `recent` says nothing then.
    stale: bool,
}

impl Model for EpochCache {
    ghost use Rattle.std.specs.Prelude.{◌≤◌};
    ghost use Rattle.epoch_cache.specs.Cache.{Cache, IsCache};
    ghost use Rattle.epoch_cache.specs.Recent.{AreMarked};

    ghost Value = { Cache };

    ghost view = { λ c. record { lines = c.table.lines; last = c.last; room = c.table.room } };

    ghost invariant = { λ c. IsCache (record { lines = c.table.lines; last = c.last; room = c.table.room }) × AreMarked c.table.lines c.table.room c.recent.places c.recent.first c.stale × (c.table.room ≤ 65535) };
}

impl EpochCache {
    /// A cache without lines, into which so many fit. The only error is want of memory.
    pub fn start(alloc: Global, lines: u16) -> Result<EpochCache, NoMemory>
        ensures empty { IfOk result (λ cache. cache ≡ record { lines = []; last = 0; room = lines }) }
        ensures is_cache { IfOk result IsCache }
    {
        let table = LineTable::start(alloc, lines)?;
        let recent = Recent::start(alloc, lines)?;
        Ok(EpochCache {
            table,
            last: 0,
            recent,
            stale: false,
        })
    }

    /// Takes all lines out and begins with epoch 0.
    pub fn clear(&mut self)
        ensures cleared { self.new ≡ record self.old { lines = []; last = 0 } }
        ensures is_cache { IsCache self.new }
    {
        self.table.clear();
        self.last = 0;
        self.recent.clear();
        self.stale = false;
    }

    /// Gives the sector's line in the last epoch a new value at its place, or adds one. A line is whole once a reliable put
    /// went into it. `Full` comes exactly where no line is free and the sector has none in the last epoch.
    pub fn put(&mut self, put: &Put) -> Result<(), Full>
        ensures full { IsErr result ↔ ((self.old.room ≤ length self.old.lines) × (list_any (is_of self.old.last put.now.sector) self.old.lines ≡ false)) }
        ensures ok { OnOk result (self.new ≡ record self.old { lines = lines_with self.old.last put.now self.old.lines }) }
        ensures err { OnErr result (self.new ≡ self.old) }
        ensures is_cache { IsCache self.new }
    {
        if let Some(k) = self.place_of(put.sector) {
            let line = renew(self.table.at(k), put);
            self.table.set(k, line);
            return Ok(());
        }
        if self.table.len() == self.table.room() {
            return Err(Full);
        }
        self.table.push(Line {
            sector: put.sector,
            value: put.value,
            whole: put.reliable,
            epoch: self.last,
        });
        mark_last(&mut self.recent, &self.table, self.stale);
        self.stale = false;
        Ok(())
    }

    /// Begins the next epoch. After epoch 4,294,967,295 there is none, and nothing changes.
    pub fn bar(&mut self)
        ensures last { self.new ≡ record self.old { last = next_epoch self.old.last } }
        ensures is_cache { IsCache self.new }
    {
        self.last = self.last.saturating_add(1);
    }

    /// The last epoch.
    pub fn last(&self) -> u32
        ensures { result ≡ self.now.last }
    {
        self.last
    }

    /// The value of the last line of the sector.
    pub fn newest(&self, sector: u32) -> Option<&Block>
        ensures { option_copied result ≡ newest_of sector self.now.lines }
    {
        let k = self.last_place(sector)?;
        Some(&self.table.at(k).value)
    }

    /// Whether there is any line.
    pub fn has_lines(&self) -> bool
        ensures { IsTrue result ↔ (0 < length self.now.lines) }
    {
        self.table.len() > 0
    }

    /// The first line of all.
    pub fn oldest_line(&self) -> Option<Line>
        ensures { result ≡ slice_get self.now.lines 0 }
    {
        self.oldest_at(0)
    }

    /// Line `k` in order, 0 the oldest. None comes exactly where `k` or fewer lines are held.
    pub fn oldest_at(&self, k: u16) -> Option<Line>
        ensures line { result ≡ slice_get self.now.lines k }
        ensures none { IsNone result ↔ (length self.now.lines ≤ k) }
        ensures below { IsSome result → k < 65535 }
    {
        if k < self.table.len() {
            Some(*self.table.at(k))
        } else {
            None
        }
    }

    /// The sector's line in the last epoch.
    pub fn line_at(&self, sector: u32) -> Option<Line>
        ensures line { result ≡ find (is_of self.now.last sector) self.now.lines }
        ensures some { IsSome result ↔ (list_any (is_of self.now.last sector) self.now.lines ≡ true) }
    {
        let k = self.place_of(sector)?;
        Some(*self.table.at(k))
    }

    /// Whether the oldest line is of an epoch before the last.
    pub fn older(&self) -> bool
        ensures { result ≡ list_any (λ line. nat_lt line.epoch self.now.last) self.now.lines }
    {
        self.table.len() > 0 && self.table.at(0).epoch < self.last
    }

    /// Takes the oldest line out.
    pub fn drop_line(&mut self)
        requires { 0 < length self.old.lines }
        ensures dropped { self.new ≡ record self.old { lines = drop 1 self.old.lines } }
        ensures is_cache { IsCache self.new }
    {
        self.drop_oldest_at(0);
    }

    /// Takes line `k` in order out, 0 the oldest. After one in front of which others stand a search costs a step for each line, until
    /// a line is added or `mark_lines` is called.
    pub fn drop_oldest_at(&mut self, k: u16)
        requires { k < length self.old.lines }
        ensures dropped { self.new ≡ record self.old { lines = remove self.old.lines k } }
        ensures is_cache { IsCache self.new }
    {
        self.table.remove(k);
        if k == 0 {
            self.recent.shift();
        } else {
            self.stale = true;
        }
    }

    /// Makes a search cost the same again however many lines there are, once lines went from between others.
    pub fn mark_lines(&mut self)
        ensures same { self.new ≡ self.old }
        ensures is_cache { IsCache self.new }
    {
        if self.stale {
            mark_all(&mut self.recent, &self.table);
            self.stale = false;
        }
    }

    /// Takes the sector's line in the last epoch out.
    pub fn drop_at(&mut self, sector: u32)
        requires { list_any (is_of self.old.last sector) self.old.lines ≡ true }
        ensures dropped { self.new ≡ record self.old { lines = filter (λ line. not (is_of self.old.last sector line)) self.old.lines } }
        ensures is_cache { IsCache self.new }
    {
        if let Some(k) = self.place_of(sector) {
            self.drop_oldest_at(k);
        }
    }

    /// How many lines are free.
    pub fn free_lines(&self) -> u16
        ensures { result ≡ self.now.room - length self.now.lines }
    {
        self.table.room() - self.table.len()
    }

    // Where in order the sector's line in the last epoch is.
    fn place_of(&self, sector: u32) -> Option<u16>
        ensures some { IfSome result (IsPlace (is_of self.now.last sector) self.now.lines) }
        ensures none { IsNone result → list_any (is_of self.now.last sector) self.now.lines ≡ false }
        ensures is_cache { IsCache self.now }
    {
        let k = self.last_place(sector)?;
        if self.table.at(k).epoch == self.last {
            Some(k)
        } else {
            None
        }
    }

    // Where in order the last line of the sector is.
    fn last_place(&self, sector: u32) -> Option<u16>
        ensures newest { IsNewest self.now.lines sector result }
        ensures is_cache { IsCache self.now }
    {
        if self.stale {
            return last_of(&self.table, sector);
        }
        let k = self.recent.place(sector)?;
        Some(k as u16)
    }
}

// Looks for the last line of a sector, from the newest line on.
fn last_of(table: &LineTable, sector: u32) -> Option<u16>
    ensures { IsNewest table.now.lines sector result }
{
    let mut k = table.len();
    while k > 0 {
        k -= 1;
        if table.at(k).sector == sector {
            return Some(k);
        }
    }
    None
}

// Notes the newest line, which came behind all others.
fn mark_last(recent: &mut Recent, table: &LineTable, stale: bool)
    requires some { 0 < length table.now.lines }
    requires fits { length table.now.lines ≤ table.now.room }
    requires before { AreMarked (take (length table.now.lines - 1) table.now.lines) table.now.room recent.old.places recent.old.first stale }
    ensures { AreMarked table.now.lines table.now.room recent.new.places recent.new.first false }
{
    let k = table.len() - 1;
    if !stale && recent.first() < MOST_FIRST && recent.mark(table.at(k).sector, k) {
        return;
    }
    mark_all(recent, table);
}

// Numbers all lines anew.
fn mark_all(recent: &mut Recent, table: &LineTable)
    requires fits { length table.now.lines ≤ table.now.room }
    requires room { 2 * table.now.room ≤ index_map_len recent.old.places + spare recent.old.places }
    ensures { AreMarked table.now.lines table.now.room recent.new.places recent.new.first false }
{
    recent.clear();
    for k in 0..table.len() {
        recent.mark(table.at(k).sector, k);
    }
}

// The line with a put's value.
fn renew(line: &Line, put: &Put) -> Line
    ensures { result ≡ renewed put.now line.now }
{
    Line {
        value: put.value,
        whole: line.whole || put.reliable,
        ..*line
    }
}
