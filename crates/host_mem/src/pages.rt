// Bytes in pages: each page is a block of memory of its own.
ghost use Rattle.std.specs.Prelude.{◌≡◌, ◌+◌, ◌-◌, ◌*◌, ◌<◌, ◌≤◌, ◌^◌, ◌++◌, ℕ, IfOk, length, replicate, take, drop, slice_index, slice_set};

use std::alloc::Global;
use std::marker::Model;
use storage_model::NoMemory;

/// The bytes of a page.
pub(crate) const PAGE_BYTES: usize = 4096;

/// The bytes of some pages, one page behind the other.
#[derive(Debug, Drop)]
pub(crate) struct Pages {
    pages: Vec<Box<[u8; PAGE_BYTES]>>,
}

impl Model for Pages {
    ghost use Rattle.std.specs.Prelude.{◌≡◌, ℕ, List, length};
    ghost use Rattle.std.specs.List.{AllByRecursion, flat_map};
    ghost use Rattle.host_mem.specs.declared.pages.TheConstants.{PAGE_BYTES};

    ghost Value = { List ℕ };

    ghost view = { λ it. flat_map (λ page. page.value) it.pages.items };

    ghost invariant = { λ it. AllByRecursion (λ page. length page.value ≡ PAGE_BYTES) it.pages.items };
}

impl Pages {
    /// So many pages with bytes of 0.
    pub(crate) fn start(alloc: Global, count: usize) -> Result<Pages, NoMemory>
        ensures { IfOk result (λ pages. pages ≡ replicate (PAGE_BYTES * count) 0) }
    {
        let mut pages = Vec::with_capacity(alloc, count)?;
        for _ in 0..count {
            pages.push(Box::new(alloc, [0; PAGE_BYTES])?)?;
        }
        Ok(Pages { pages })
    }

    /// The byte at a place.
    pub(crate) fn get(&self, at: usize) -> u8
        requires { at < length self.now }
        ensures { result ≡ slice_index self.now at }
    {
        self.pages[at / PAGE_BYTES][at % PAGE_BYTES]
    }

    /// Puts a byte at a place.
    pub(crate) fn set(&mut self, at: usize, value: u8)
        requires { at < length self.old }
        ensures { self.new ≡ slice_set self.old at value }
    {
        self.pages[at / PAGE_BYTES][at % PAGE_BYTES] = value;
    }

    /// Copies the bytes from a place on.
    pub(crate) fn copy_out(&self, at: usize, to: &mut [u8])
        requires within { at + length to.old ≤ length self.now }
        requires below { at + length to.old < 2 ^ 64 }
        ensures { to.new ≡ take (length to.old) (drop at self.now) }
    {
        let mut done = 0;
        while done < to.len() {
            done += self.copy_part_out(at + done, &mut to[done..]);
        }
    }

    /// Copies bytes to a place and those that follow.
    pub(crate) fn copy_in(&mut self, at: usize, from: &[u8])
        requires within { at + length from.now ≤ length self.old }
        requires below { at + length from.now < 2 ^ 64 }
        ensures { self.new ≡ take at self.old ++ (from.now ++ drop (at + length from.now) self.old) }
    {
        let mut done = 0;
        while done < from.len() {
            done += self.copy_part_in(at + done, &from[done..]);
        }
    }

    // Copies as many bytes as the page of the place has from there on, and returns how many.
    fn copy_part_out(&self, at: usize, to: &mut [u8]) -> usize
        requires some { 0 < length to.old }
        requires within { at + length to.old ≤ length self.now }
        ensures some { 0 < result }
        ensures within { result ≤ length to.old }
        ensures copied { to.new ≡ take result (drop at self.now) ++ drop result to.old }
    {
        let start = at % PAGE_BYTES;
        let count = to.len().min(PAGE_BYTES - start);
        let page = &self.pages[at / PAGE_BYTES][..];
        to[..count].copy_from_slice(&page[start..start + count]);
        count
    }

    // Copies as many bytes as the page of the place has from there on, and returns how many.
    fn copy_part_in(&mut self, at: usize, from: &[u8]) -> usize
        requires some { 0 < length from.now }
        requires within { at + length from.now ≤ length self.old }
        ensures some { 0 < result }
        ensures within { result ≤ length from.now }
        ensures copied { self.new ≡ take at self.old ++ (take result from.now ++ drop (at + result) self.old) }
    {
        let start = at % PAGE_BYTES;
        let count = from.len().min(PAGE_BYTES - start);
        let page = &mut self.pages[at / PAGE_BYTES][..];
        page[start..start + count].copy_from_slice(&from[..count]);
        count
    }
}
