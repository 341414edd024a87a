ghost use Rattle.std.specs.Prelude.{◌≡◌, ◌||◌, ◌*◌, ◌<◌, true, false, is_ok, OnErr, OnOk};
ghost use Rattle.std.specs.Option.{is_none};
ghost use Rattle.storage_model.specs.Count.{RaisedByOne};
ghost use Rattle.array_edge.specs.Array.{Ends, HasPage, IsTorn, IsUnsettled, with_page};
ghost use Rattle.array_edge.specs.FilePages.{FilePages, after_end, array_over};
ghost use Rattle.array_edge.specs.Hits.{raised};
ghost use Rattle.array_edge.specs.declared.array.ArrayEnd.TheVariants.{Failed};

use crate::array::{Array, ArrayEnd};
use std::fs::File;
use std::marker::Model;
use std::os::unix::fs::FileExt;
use storage_model::Block;

/// An array over a file, or over none: page p is the 512 bytes of the file from 512 p on. Each error of the file fails
/// the call. Contracts don't say what the file holds.
#[derive(Drop)]
pub struct FileArray {
    file: Option<File>,
    pages: u32,
    powered: bool,
    faults: u64,
    programs: u64,
    fetches: u64,
    settled: bool,
}

impl Model for FileArray {
    ghost Value = { FilePages };

    ghost view = { λ f. record { pages = f.pages; missing = is_none f.file; powered = f.powered; faults = f.faults; programs = f.programs; fetches = f.fetches; settled = f.settled } };
}

impl FileArray {
    /// The first `pages` blocks of 512 bytes of the file, with the power off.
    pub fn over(file: File, pages: u32) -> FileArray
        ensures { result ≡ record { pages = pages; missing = false; powered = false; faults = 0; programs = 0; fetches = 0; settled = false } }
    {
        FileArray::start(Some(file), pages)
    }

    /// An array of so many pages without a file, with the power off: each `fetch`, `program` and `settle` with the
    /// power on fails.
    pub fn failing(pages: u32) -> FileArray
        ensures { result ≡ record { pages = pages; missing = true; powered = false; faults = 0; programs = 0; fetches = 0; settled = false } }
    {
        FileArray::start(None, pages)
    }

    fn start(file: Option<File>, pages: u32) -> FileArray
        ensures { result ≡ record { pages = pages; missing = is_none file; powered = false; faults = 0; programs = 0; fetches = 0; settled = false } }
    {
        FileArray {
            file,
            pages,
            powered: false,
            faults: 0,
            programs: 0,
            fetches: 0,
            settled: false,
        }
    }
}

impl Array for FileArray {
    ghost state = { array_over };

    ghost told_count = { λ _. tt };

    fn pages(&self) -> u32 {
        self.pages
    }

    fn fetch(&mut self, page: u32, block: &mut Block) -> Result<(), ArrayEnd>
        requires { page < self.old.pages }
        ensures read { OnOk result (HasPage (array_over self.old).told page block.new) }
        ensures same { array_over self.new ≡ record (array_over self.old) { faults = (array_over self.new).faults; fetches = (array_over self.new).fetches } }
        ensures number { (array_over self.old).powered ≡ true → RaisedByOne (array_over self.old).fetches (array_over self.new).fetches }
        ensures ends { Ends (array_over self.old) (array_over self.new) result }
        ensures counted { self.old.powered ≡ true → self.new ≡ after_end result (record self.old { fetches = raised self.old.fetches }) }
        ensures failing { self.old.powered ≡ true → self.old.missing ≡ true → result ≡ Err Failed }
        ensures kept { self.old.powered ≡ false → self.new ≡ self.old }
    {
        if !self.powered {
            return Err(ArrayEnd::PowerLost);
        }
        self.fetches = self.fetches.saturating_add(1);
        let read = match &self.file {
            Some(file) => file.read_exact_at(&mut block.0, offset_of(page)).is_ok(),
            None => false,
        };
        if !read {
            self.faults = self.faults.saturating_add(1);
            return Err(ArrayEnd::Failed);
        }
        Ok(())
    }

    fn program(&mut self, page: u32, block: &Block) -> Result<(), ArrayEnd>
        requires { page < self.old.pages }
        ensures written { OnOk result ((array_over self.new).told ≡ with_page (array_over self.old).told page block.now) }
        ensures torn { OnErr result (IsTorn (array_over self.old).told page block.now (array_over self.new).told) }
        ensures same { array_over self.new ≡ record (array_over self.new) { count = (array_over self.old).count; fetches = (array_over self.old).fetches } }
        ensures unsettled { IsUnsettled (array_over self.old) (array_over self.new) result }
        ensures number { (array_over self.old).powered ≡ true → RaisedByOne (array_over self.old).programs (array_over self.new).programs }
        ensures ends { Ends (array_over self.old) (array_over self.new) result }
        ensures counted { self.old.powered ≡ true → self.new ≡ after_end result (record self.old { programs = raised self.old.programs; settled = false }) }
        ensures failing { self.old.powered ≡ true → self.old.missing ≡ true → result ≡ Err Failed }
        ensures kept { self.old.powered ≡ false → self.new ≡ self.old }
    {
        if !self.powered {
            return Err(ArrayEnd::PowerLost);
        }
        self.programs = self.programs.saturating_add(1);
        self.settled = false;
        let written = match &self.file {
            Some(file) => file.write_all_at(&block.0, offset_of(page)).is_ok(),
            None => false,
        };
        if !written {
            self.faults = self.faults.saturating_add(1);
            return Err(ArrayEnd::Failed);
        }
        Ok(())
    }

    fn settle(&mut self) -> Result<(), ArrayEnd>
        ensures same { array_over self.new ≡ record (array_over self.old) { faults = (array_over self.new).faults; settled = is_ok result || (array_over self.old).settled } }
        ensures ends { Ends (array_over self.old) (array_over self.new) result }
        ensures counted { self.old.powered ≡ true → self.new ≡ after_end result (record self.old { settled = is_ok result || self.old.settled }) }
        ensures failing { self.old.powered ≡ true → self.old.missing ≡ true → result ≡ Err Failed }
        ensures kept { self.old.powered ≡ false → self.new ≡ self.old }
    {
        if !self.powered {
            return Err(ArrayEnd::PowerLost);
        }
        let synced = match &self.file {
            Some(file) => file.sync_all().is_ok(),
            None => false,
        };
        if !synced {
            self.faults = self.faults.saturating_add(1);
            return Err(ArrayEnd::Failed);
        }
        self.settled = true;
        Ok(())
    }

    fn power_on(&mut self)
        ensures state { array_over self.new ≡ record (array_over self.old) { powered = true } }
        ensures kept { self.new ≡ record self.old { powered = true } }
    {
        self.powered = true;
    }
}

// Where a page begins in the file.
fn offset_of(page: u32) -> u64
    ensures { result ≡ 512 * page }
{
    512 * u64::from(page)
}
