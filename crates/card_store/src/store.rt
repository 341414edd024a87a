ghost use Rattle.std.specs.Prelude.{◌≡◌, ◌↔◌, ◌⊎◌, ◌<◌, ◌≤◌, true, false, [], drop, length, max, slice_index_or, Option, Some, None, IfSome, MatchOption, IsErrOf, IsSome, IfOk, OnOk, OnErr, Ok, is_ok, option_map};
ghost use Rattle.storage_model.specs.Contents.{contents_now, sector_at};
ghost use Rattle.storage_model.specs.Left.{is_left};
ghost use Rattle.storage_model.specs.Keep.{every_sector, is_named};
ghost use Rattle.array_edge.specs.Array.{ArrayState};
ghost use Rattle.intent_store.specs.Calls.{Opens};
ghost use Rattle.intent_store.specs.Intent.{IntentStands, IsNoImage, ShowsImage, StartEnds, StoreEnds, shown_by};
ghost use Rattle.intent_store.specs.declared.ends.StartEnd.TheVariants.{BadImage};
ghost use Rattle.card_store.specs.declared.ends.StageEnd.TheVariants.{Empty};
ghost use Rattle.epoch_cache.specs.Cache.{newest_of, next_epoch};
ghost use Rattle.card_store.specs.Staging.{HasRoom, IsFull, StageEnds, only_settled, spared, with_line};
ghost use Rattle.card_store.specs.Store.{Contents, HasSector, IsFirstFrom, HasSectors, IsOpen, IsSameStore, IsStore, Reads, Stands, Store, Turns, has_put, kept, same, sectors_of, with_bar, with_put};

use crate::StageEnd;
use crate::sector_set::SectorSet;
use crate::stage::{place, settle, stage_all, stage_named, stage_older, stage_oldest};
use array_edge::Array;
use epoch_cache::EpochCache;
use intent_store::{Intent, StartEnd, StoreEnd};
use std::alloc::Global;
use std::marker::Model;
use storage_model::{Block, NoMemory, Put};

/// A cache of lines over an image. It keeps neither contents nor marks: what it and the array stand for is in its contracts.
#[derive(Debug, Drop)]
pub struct CardStore {
    cache: EpochCache,
    intent: Option<Intent>,
    pending: SectorSet,
    latest: SectorSet,
}

impl Model for CardStore {
    ghost use Rattle.card_store.specs.Store.{IsStore, Store};

    ghost Value = { Store };

    ghost view = { λ s. record { cache = s.cache; known = s.intent; pending = s.pending; latest = s.latest } };

    ghost invariant = { λ s. IsStore (record { cache = s.cache; known = s.intent; pending = s.pending; latest = s.latest }) };
}

impl CardStore {
    /// A store without an open image, whose cache has so many lines, but at least one. The only error is want of memory.
    pub fn start(alloc: Global, lines: u16) -> Result<CardStore, NoMemory>
        ensures closed { IfOk result (λ store. store.known ≡ None) }
        ensures empty { IfOk result (λ store. store.cache ≡ record { lines = []; last = 0; room = max lines 1 }) }
    {
        Ok(CardStore {
            cache: EpochCache::start(alloc, lines.max(1))?,
            intent: None,
            pending: SectorSet::start(alloc)?,
            latest: SectorSet::start(alloc)?,
        })
    }

    /// The number of sectors of the image. What the array shows of them may be left by a loss of power at any moment.
    pub fn sectors(&self) -> u32
        requires { IsSome self.now.known }
        ensures value { sectors_of self.now ≡ Some result }
        ensures most { result ≤ 65536 }
        ensures left { (c : Contents) → (array : ArrayState) → Stands c self.now array → IfSome (shown_by array) (λ shown. is_left c.base c.pend shown ≡ true) }
    {
        match &self.intent {
            Some(intent) => intent.sectors(),
            None => unreachable!(),
        }
    }

    /// Tells what the store keeps of its cache: it has one line at most for each sector and epoch, in order of epochs, and its lines
    /// are of the image. It does nothing.
    pub fn keeps_lines(&self)
        ensures { IsStore self.now }
    {
        let _ = self.intent.is_some();
    }

    /// Whether a put on the sector is pending: a loss of power may leave the sector otherwise than it reads.
    pub fn pending(&self, sector: u32) -> bool
        requires { HasSector self.now sector }
        ensures value { (c : Contents) → (array : ArrayState) → Stands c self.now array → result ≡ has_put sector c.pend }
        ensures bare { result ≡ false → (c : Contents) → (array : ArrayState) → Stands c self.now array → IfSome (shown_by array) (λ shown. sector_at shown sector ≡ sector_at c.base sector) }
    {
        prove!(self.sectors() <= 65536);
        self.pending.has(sector)
    }

    /// The first sector from `from` on that has a pending put.
    pub fn next_pending(&self, from: u32) -> Option<u32>
        requires { IsSome self.now.known }
        ensures some { IfSome result (HasSector self.now) }
        ensures next { (c : Contents) → (array : ArrayState) → Stands c self.now array → IsFirstFrom (λ s. has_put s c.pend) from (length c.base) result }
    {
        self.pending.first_from(from, self.sectors())
    }

    /// Puts a value into the cache. Where that is full the oldest line is staged before.
    pub fn put<A: Array>(&mut self, put: &Put, array: &mut A) -> Result<(), StoreEnd>
        requires open { IsOpen self.old (A.state array.old) }
        requires sector { HasSector self.old put.now.sector }
        ensures open { IsOpen self.new (A.state array.new) }
        ensures store { IsSameStore self.old self.new }
        ensures ok { OnOk result (Turns (with_put put.now) self.old (A.state array.old) self.new (A.state array.new)) }
        ensures err { OnErr result (Turns same self.old (A.state array.old) self.new (A.state array.new)) }
        ensures free { HasRoom put.now self.old.cache → (result ≡ Ok tt) × (A.state array.new ≡ A.state array.old) }
        ensures line { HasRoom put.now self.old.cache → self.new.cache ≡ with_line put.now self.old.cache }
        ensures full { IsFull put.now self.old.cache → OnOk result (self.new.cache ≡ with_line put.now (record self.old.cache { lines = drop 1 self.old.cache.lines })) }
        ensures kept { OnErr result (self.new.cache ≡ self.old.cache) }
        ensures ends { StoreEnds (A.state array.old) (A.state array.new) result }
    {
        let Some(intent) = &mut self.intent else {
            unreachable!()
        };
        place(&mut self.cache, intent, put, array)?;
        self.pending.insert(put.sector);
        self.latest.insert(put.sector);
        Ok(())
    }

    /// Begins the next epoch. After 4,294,967,295 barriers since the image was opened nothing changes.
    pub fn bar(&mut self)
        ensures turns { (array : ArrayState) → Turns (with_bar self.old.cache.last) self.old array self.new array }
        ensures known { self.new.known ≡ self.old.known }
        ensures last { self.new.cache ≡ record self.old.cache { last = next_epoch self.old.cache.last } }
    {
        if self.cache.last() < u32::MAX {
            self.cache.bar();
            self.latest.clear();
        }
    }

    /// Reads a sector, from its newest line, and else from the array. It programs nothing.
    pub fn read<A: Array>(
        &mut self,
        sector: u32,
        block: &mut Block,
        array: &mut A,
    ) -> Result<(), StoreEnd>
        requires open { IsOpen self.old (A.state array.old) }
        requires sector { HasSector self.old sector }
        ensures open { IsOpen self.new (A.state array.new) }
        ensures store { IsSameStore self.old self.new }
        ensures ok { OnOk result (Reads self.old (A.state array.old) sector block.new) }
        ensures turns { Turns same self.old (A.state array.old) self.new (A.state array.new) }
        ensures cache { self.new.cache ≡ self.old.cache }
        ensures same { A.state array.new ≡ record (A.state array.old) { faults = (A.state array.new).faults; fetches = (A.state array.new).fetches } }
        ensures line { (newest_of sector self.old.cache.lines ≡ None) ⊎ ((result ≡ Ok tt) × (A.state array.new ≡ A.state array.old)) }
        ensures ends { StoreEnds (A.state array.old) (A.state array.new) result }
    {
        if let Some(value) = self.cache.newest(sector) {
            *block = *value;
            return Ok(());
        }
        let Some(intent) = &mut self.intent else {
            unreachable!()
        };
        intent.read(sector, block, array)
    }

    /// Stages all lines, the oldest first, and makes them durable (JESD84-B51, the flush of the cache). Where no line is held
    /// it only makes durable.
    pub fn flush<A: Array>(&mut self, array: &mut A) -> Result<(), StoreEnd>
        requires open { IsOpen self.old (A.state array.old) }
        ensures open { IsOpen self.new (A.state array.new) }
        ensures store { IsSameStore self.old self.new }
        ensures ok { OnOk result (Turns (kept every_sector) self.old (A.state array.old) self.new (A.state array.new)) }
        ensures empty { OnOk result (self.new.cache.lines ≡ []) }
        ensures settled { OnOk result ((A.state array.new).settled ≡ true) }
        ensures bare { self.old.cache.lines ≡ [] → A.state array.new ≡ only_settled (A.state array.old) (A.state array.new) }
        ensures err { OnErr result (Turns same self.old (A.state array.old) self.new (A.state array.new)) }
        ensures ends { StoreEnds (A.state array.old) (A.state array.new) result }
    {
        let Some(intent) = &mut self.intent else {
            unreachable!()
        };
        stage_all(&mut self.cache, intent, array)?;
        settle(array)?;
        self.pending.clear();
        self.latest.clear();
        Ok(())
    }

    /// Opens the image on the array, with an empty cache. A refused call leaves the store without an open image.
    pub fn boot<A: Array>(&mut self, array: &mut A) -> Result<(), StartEnd>
        ensures open { OnOk result (IsOpen self.new (A.state array.new)) }
        ensures stands { OnOk result (IfSome (shown_by (A.state array.new)) (λ shown. Stands (record { base = shown; pend = [] }) self.new (A.state array.new))) }
        ensures closed { OnErr result (self.new.known ≡ None) }
        ensures room { self.new.cache ≡ record self.old.cache { lines = []; last = 0 } }
        ensures shown { shown_by (A.state array.new) ≡ shown_by (A.state array.old) }
        ensures image { ShowsImage (A.state array.old) → ShowsImage (A.state array.new) }
        ensures was_image { ShowsImage (A.state array.new) → ShowsImage (A.state array.old) }
        ensures bad { IsErrOf result BadImage → IsNoImage (A.state array.old) }
        ensures ok { OnOk result (ShowsImage (A.state array.old)) }
        ensures calls { Opens (record (A.state array.old) { powered = true }) (A.state array.new) (is_ok result) }
        ensures few { (A.state array.old).count < 2 → IsErrOf result BadImage × (A.state array.new ≡ record (A.state array.old) { powered = true }) }
        ensures ends { StartEnds (A.state array.old) (A.state array.new) result }
    {
        self.cache.clear();
        self.pending.clear();
        self.latest.clear();
        self.intent = None;
        let intent = Intent::start(array)?;
        prove!(intent.sectors() <= 65536);
        self.intent = Some(intent);
        Ok(())
    }

    /// Stages the oldest line. `Empty` comes exactly where no line is held.
    pub fn stage_one<A: Array>(&mut self, array: &mut A) -> Result<(), StageEnd>
        requires open { IsOpen self.old (A.state array.old) }
        ensures open { IsOpen self.new (A.state array.new) }
        ensures store { IsSameStore self.old self.new }
        ensures empty { IsErrOf result Empty ↔ (self.old.cache.lines ≡ []) }
        ensures none { IsErrOf result Empty → A.state array.new ≡ A.state array.old }
        ensures ok { OnOk result (self.new.cache ≡ record self.old.cache { lines = drop 1 self.old.cache.lines }) }
        ensures err { OnErr result (self.new.cache ≡ self.old.cache) }
        ensures turns { Turns same self.old (A.state array.old) self.new (A.state array.new) }
        ensures ends { StageEnds (A.state array.old) (A.state array.new) result }
    {
        if !self.cache.has_lines() {
            return Err(StageEnd::Empty);
        }
        let Some(intent) = &mut self.intent else {
            unreachable!()
        };
        match stage_oldest(&mut self.cache, intent, array) {
            Ok(()) => Ok(()),
            Err(StoreEnd::Flash) => Err(StageEnd::Flash),
            Err(StoreEnd::PowerLost) => Err(StageEnd::PowerLost),
        }
    }

    /// Makes durable what older epochs hold, and of the last the `blocks` sectors from `first` on: the lines of older epochs
    /// are staged, then those of the sectors, in the order in which they came to be (JESD84-B51, forced and reliable write).
    pub fn keep<A: Array>(&mut self, first: u32, blocks: u16, array: &mut A) -> Result<(), StoreEnd>
        requires open { IsOpen self.old (A.state array.old) }
        requires sectors { HasSectors self.old first blocks }
        ensures open { IsOpen self.new (A.state array.new) }
        ensures store { IsSameStore self.old self.new }
        ensures ok { OnOk result (Turns (kept (is_named first blocks)) self.old (A.state array.old) self.new (A.state array.new)) }
        ensures lines { OnOk result (self.new.cache.lines ≡ spared first blocks self.old.cache) }
        ensures settled { OnOk result ((A.state array.new).settled ≡ true) }
        ensures err { OnErr result (Turns same self.old (A.state array.old) self.new (A.state array.new)) }
        ensures ends { StoreEnds (A.state array.old) (A.state array.new) result }
    {
        let Some(intent) = &mut self.intent else {
            unreachable!()
        };
        stage_older(&mut self.cache, intent, array)?;
        stage_named(first, blocks, &mut self.cache, intent, array)?;
        settle(array)?;
        self.latest.remove_all(first, blocks);
        self.pending.copy_from(&self.latest);
        Ok(())
    }
}
