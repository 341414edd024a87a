// What is pending, of which the puts of each sector are at hand.
ghost use Rattle.std.specs.Prelude.{◌≡◌, ◌<◌, [], ◌++◌, length, OnOk, OnErr};
ghost use Rattle.storage_machine.specs.Cuts.{next_left};
ghost use Rattle.storage_machine.specs.PutIndex.{puts_on, value_after};
ghost use Rattle.storage_model.specs.Contents.{contents_now, sector_at};
ghost use Rattle.storage_model.specs.Left.{mix_at};

use crate::cuts::next_left;
use crate::put_index::{PutIndex, allows, newest, next_put, no_puts, with_marks, without_marks};
use std::alloc::Global;
use std::marker::Model;
use std::mem;
use storage_model::{Block, Mark, MarkList, NoMemory, mix_allows};

/// Marks. A question of one sector walks that sector's puts alone, as long as there was memory for an index of them.
#[derive(Drop)]
pub struct Marks {
    list: MarkList,
    index: Option<PutIndex>,
}

impl Model for Marks {
    ghost use Rattle.std.specs.Prelude.{List, IfSome};
    ghost use Rattle.storage_machine.specs.PutIndex.{IsIndex};
    ghost use Rattle.storage_model.specs.declared.marks.Mark.{Mark};

    ghost Value = { List Mark };

    ghost view = { λ it. it.list };

    ghost invariant = { λ it. IfSome it.index (λ index. IsIndex it.list index.epochs.items index.puts.items index.last) };
}

impl Marks {
    /// No marks. It takes no memory.
    pub fn new(alloc: Global) -> Self
        ensures { result ≡ [] }
    {
        Marks {
            list: MarkList::new(alloc),
            index: Some(no_puts(alloc)),
        }
    }

    pub fn as_slice(&self) -> &[Mark]
        ensures { result.now ≡ self.now }
    {
        self.list.as_slice()
    }

    pub fn len(&self) -> usize
        ensures { result ≡ length self.now }
    {
        self.list.len()
    }

    /// Appends marks; without memory they stay as they were.
    pub fn extend(&mut self, alloc: Global, more: &[Mark]) -> Result<(), NoMemory>
        ensures ok { OnOk result (self.new ≡ self.old ++ more.now) }
        ensures err { OnErr result (self.new ≡ self.old) }
    {
        let from = self.list.len();
        extend(&mut self.list, alloc, more)?;
        let index = mem::replace(&mut self.index, None);
        self.index = with_marks(index, alloc, self.list.as_slice(), from);
        Ok(())
    }

    /// Puts other marks in their place.
    pub fn replace(&mut self, alloc: Global, rest: MarkList)
        ensures { self.new ≡ rest }
    {
        let index = mem::replace(&mut self.index, None);
        let index = without_marks(index, alloc, self.list.as_slice());
        self.index = with_marks(index, alloc, rest.as_slice(), 0);
        self.list = rest;
    }

    /// Takes all marks out.
    pub fn clear(&mut self, alloc: Global)
        ensures { self.new ≡ [] }
    {
        self.replace(alloc, MarkList::new(alloc));
    }

    /// The value of a sector of contents after these marks.
    pub fn value(&self, base: &[Block], sector: usize) -> Block
        requires { sector < length base.now }
        ensures { result ≡ sector_at (contents_now base.now self.now) sector }
    {
        let value = base[sector];
        match &self.index {
            Some(index) => newest(index, value, sector),
            None => walk_value(self.list.as_slice(), value, sector),
        }
    }

    /// The lowest sector, from a first on, that has a put.
    pub fn next_left(&self, from: u64) -> Option<u32>
        ensures { result ≡ next_left self.now from }
    {
        match &self.index {
            Some(index) => next_put(index, from),
            None => next_left(self.list.as_slice(), from),
        }
    }

    /// Whether a value may be left of a sector where `epoch` is the one that was being written.
    pub fn allows(&self, base: &[Block], epoch: usize, sector: usize, value: &Block) -> bool
        requires { sector < length base.now }
        ensures { result ≡ mix_at base.now self.now epoch sector value.now }
    {
        match &self.index {
            Some(index) => allows(index, &base[sector], epoch, sector, value),
            None => mix_allows(base, self.list.as_slice(), epoch, sector, value),
        }
    }
}

/// Appends marks to a list; without memory it stays as it was.
pub fn extend(list: &mut MarkList, alloc: Global, more: &[Mark]) -> Result<(), NoMemory>
    ensures ok { OnOk result (list.new ≡ list.old ++ more.now) }
    ensures err { OnErr result (list.new ≡ list.old) }
{
    let mut marks = mem::replace(list, MarkList::new(alloc)).into_vec();
    let added = marks.extend_from_slice(more);
    *list = MarkList::from_vec(marks);
    added?;
    Ok(())
}

fn walk_value(marks: &[Mark], value: Block, sector: usize) -> Block
    ensures { result ≡ value_after value (puts_on sector marks.now) }
{
    let mut value = value;
    for mark in marks {
        if let Mark::Put(put) = mark {
            if put.sector as usize == sector {
                value = put.value;
            }
        }
    }
    value
}
