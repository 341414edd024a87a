// The puts of each sector, found without a walk over all that is pending.
ghost use Rattle.std.specs.Prelude.{◌≡◌, ◌==◌, ◌+◌, ◌-◌, ◌<◌, ◌≤◌, ◌^◌, ℕ, if◌then◌else◌, List, [], ◌∷◌, ◌++◌, drop, get_or, length, take, IfSome, OnOk};
ghost use Rattle.storage_machine.specs.Cuts.{next_left};
ghost use Rattle.storage_machine.specs.PutIndex.{IsFreed, IsIndex, count_below, count_same, puts_in, puts_on, value_after, value_before};
ghost use Rattle.storage_model.specs.Contents.{sector_at};
ghost use Rattle.storage_model.specs.Left.{mix_at};
ghost use Rattle.storage_model.specs.declared.block.Block.{Block};
ghost use Rattle.storage_model.specs.declared.marks.Mark.{Mark};
ghost use Rattle.storage_model.specs.declared.marks.Mark.TheVariants.{Put as PutMark};

use crate::EpochList;
use std::alloc::Global;
use storage_model::{Block, Mark, MarkList, NoMemory, Put, Sequence, mix_allows};

/// By sector: of each of its puts the epoch, and the put, as one on sector 0. They grow with the highest sector that has one.
#[derive(Drop)]
pub struct PutIndex {
    epochs: Vec<EpochList>,
    puts: Vec<MarkList>,
    last: usize,
}

/// No sector has a put. It takes no memory.
pub fn no_puts(alloc: Global) -> PutIndex
    ensures { IsIndex [] result.epochs.items result.puts.items result.last }
{
    PutIndex {
        epochs: Vec::new(alloc),
        puts: Vec::new(alloc),
        last: 0,
    }
}

// As many lists as reach a place.
fn grow<T: Drop>(lists: &mut Vec<Sequence<T>>, alloc: Global, place: u32) -> Result<(), NoMemory>
    requires { length lists.old.items ≤ 2 ^ 32 }
    ensures same { OnOk result ((s : ℕ) → get_or lists.new.items s [] ≡ get_or lists.old.items s []) }
    ensures long { OnOk result (place < length lists.new.items) }
    ensures short { OnOk result (length lists.new.items ≤ 2 ^ 32) }
{
    while lists.len() <= place as usize {
        lists.push(Sequence::new(alloc))?;
    }
    Ok(())
}

// Adds to the list at a place.
fn add_at<T: Drop>(
    lists: &mut Vec<Sequence<T>>,
    alloc: Global,
    place: u32,
    item: T,
) -> Result<(), NoMemory>
    requires { length lists.old.items ≤ 2 ^ 32 }
    ensures at { OnOk result ((s : ℕ) → get_or lists.new.items s [] ≡ (if s == place then get_or lists.old.items s [] ++ item ∷ [] else get_or lists.old.items s [])) }
    ensures short { OnOk result (length lists.new.items ≤ 2 ^ 32) }
{
    grow(lists, alloc, place)?;
    lists[place as usize].push(item)?;
    Ok(())
}

// Takes all out of the list at a place.
fn empty_at<T: Drop>(lists: &mut Vec<Sequence<T>>, alloc: Global, place: u32)
    ensures at { (s : ℕ) → get_or lists.new.items s [] ≡ (if s == place then [] else get_or lists.old.items s []) }
    ensures long { length lists.new.items ≡ length lists.old.items }
{
    let place = place as usize;
    if place < lists.len() {
        lists[place] = Sequence::new(alloc);
    }
}

fn note_put(index: &mut PutIndex, alloc: Global, put: &Put) -> Result<(), NoMemory>
    requires { (length index.old.epochs.items ≤ 2 ^ 32) × (length index.old.puts.items ≤ 2 ^ 32) }
    ensures { OnOk result ((marks : List Mark) → IsIndex marks index.old.epochs.items index.old.puts.items index.old.last → IsIndex (marks ++ PutMark put.now ∷ []) index.new.epochs.items index.new.puts.items index.new.last) }
{
    let alone = Put {
        sector: 0,
        value: put.value,
        reliable: put.reliable,
    };
    add_at(&mut index.epochs, alloc, put.sector, index.last)?;
    add_at(&mut index.puts, alloc, put.sector, Mark::Put(alone))?;
    Ok(())
}

fn note(index: &mut PutIndex, alloc: Global, mark: &Mark) -> Result<(), NoMemory>
    requires short { (length index.old.epochs.items ≤ 2 ^ 32) × (length index.old.puts.items ≤ 2 ^ 32) }
    requires few { index.old.last + 1 < 2 ^ 64 }
    ensures { OnOk result ((marks : List Mark) → IsIndex marks index.old.epochs.items index.old.puts.items index.old.last → IsIndex (marks ++ mark.now ∷ []) index.new.epochs.items index.new.puts.items index.new.last) }
{
    match mark {
        Mark::Bar => {
            index.last += 1;
            Ok(())
        }
        Mark::Put(put) => note_put(index, alloc, put),
    }
}

/// Notes the marks from a place on. Without memory the index is given up.
pub fn with_marks(
    index: Option<PutIndex>,
    alloc: Global,
    marks: &[Mark],
    from: usize,
) -> Option<PutIndex>
    requires within { from ≤ length marks.now }
    requires noted { IfSome index (λ index. IsIndex (take from marks.now) index.epochs.items index.puts.items index.last) }
    ensures { IfSome result (λ index. IsIndex marks.now index.epochs.items index.puts.items index.last) }
{
    match index {
        None => None,
        Some(index) => note_from(index, alloc, marks, from),
    }
}

fn note_from(index: PutIndex, alloc: Global, marks: &[Mark], from: usize) -> Option<PutIndex>
    requires within { from ≤ length marks.now }
    requires noted { IsIndex (take from marks.now) index.epochs.items index.puts.items index.last }
    ensures { IfSome result (λ index. IsIndex marks.now index.epochs.items index.puts.items index.last) }
{
    let mut index = index;
    let count = marks.len();
    let mut place = from;
    while place < count {
        if note(&mut index, alloc, &marks[place]).is_err() {
            return None;
        }
        place += 1;
    }
    Some(index)
}

/// Takes all marks out, at the cost of those alone.
pub fn without_marks(index: Option<PutIndex>, alloc: Global, marks: &[Mark]) -> Option<PutIndex>
    requires { IfSome index (λ index. IsIndex marks.now index.epochs.items index.puts.items index.last) }
    ensures { IfSome result (λ index. IsIndex [] index.epochs.items index.puts.items index.last) }
{
    match index {
        None => None,
        Some(index) => Some(forget_all(index, alloc, marks)),
    }
}

fn forget_all(index: PutIndex, alloc: Global, marks: &[Mark]) -> PutIndex
    requires { IsIndex marks.now index.epochs.items index.puts.items index.last }
    ensures { IsIndex [] result.epochs.items result.puts.items result.last }
{
    let mut index = index;
    for mark in marks {
        forget(&mut index, alloc, mark);
    }
    index.last = 0;
    index
}

fn forget(index: &mut PutIndex, alloc: Global, mark: &Mark)
    ensures { (marks : List Mark) → (epochs : List (List ℕ)) → (puts : List (List Mark)) → IsFreed marks epochs puts index.old.epochs.items index.old.puts.items → IsFreed (marks ++ mark.now ∷ []) epochs puts index.new.epochs.items index.new.puts.items }
{
    match mark {
        Mark::Bar => (),
        Mark::Put(put) => {
            empty_at(&mut index.epochs, alloc, put.sector);
            empty_at(&mut index.puts, alloc, put.sector);
        }
    }
}

fn list_at<T>(lists: &[Sequence<T>], place: usize) -> &[T]
    ensures { result.now ≡ get_or lists.now place [] }
{
    if place < lists.len() {
        lists[place].as_slice()
    } else {
        &[]
    }
}

/// The value of a sector that had one before all puts.
pub fn newest(index: &PutIndex, value: Block, sector: usize) -> Block
    ensures { (marks : List Mark) → IsIndex marks index.now.epochs.items index.now.puts.items index.now.last → result ≡ value_after value (puts_on sector marks) }
{
    last_value(list_at(index.puts.as_slice(), sector), value)
}

fn last_value(puts: &[Mark], value: Block) -> Block
    ensures { result ≡ value_after value puts.now }
{
    let mut end = puts.len();
    while end > 0 {
        match &puts[end - 1] {
            Mark::Put(put) => return put.value,
            Mark::Bar => end -= 1,
        }
    }
    value
}

/// The lowest sector, from a first on, that has a put.
pub fn next_put(index: &PutIndex, from: u64) -> Option<u32>
    requires { length index.now.puts.items ≤ 2 ^ 32 }
    ensures { (marks : List Mark) → IsIndex marks index.now.epochs.items index.now.puts.items index.now.last → result ≡ next_left marks from }
{
    let mut sector = from;
    while sector < index.puts.len() as u64 {
        if 0 < list_at(index.puts.as_slice(), sector as usize).len() {
            return Some(sector as u32);
        }
        sector += 1;
    }
    None
}

/// Whether a value may be left of a sector that had one before all puts, where `epoch` was being written.
pub fn allows(index: &PutIndex, before: &Block, epoch: usize, sector: usize, value: &Block) -> bool
    requires { length (get_or index.now.epochs.items sector []) ≡ length (get_or index.now.puts.items sector []) }
    ensures { (base : List Block) → (marks : List Mark) → IsIndex marks index.now.epochs.items index.now.puts.items index.now.last → sector < length base → before.now ≡ sector_at base sector → result ≡ mix_at base marks epoch sector value.now }
{
    let epochs = list_at(index.epochs.as_slice(), sector);
    let puts = list_at(index.puts.as_slice(), sector);
    allows_in(epochs, puts, before, epoch, value)
}

fn allows_in(epochs: &[usize], puts: &[Mark], before: &Block, epoch: usize, value: &Block) -> bool
    requires { length epochs.now ≡ length puts.now }
    ensures { result ≡ mix_at (value_before epoch epochs.now before.now puts.now ∷ []) (puts_in epoch epochs.now puts.now) 0 0 value.now }
{
    let first = count_below(epochs, epoch);
    let count = count_same(&epochs[first..], epoch);
    let start = [last_value(&puts[..first], *before)];
    mix_allows(&start, &puts[first..first + count], 0, 0, value)
}

fn count_below(epochs: &[usize], epoch: usize) -> usize
    ensures is { result ≡ count_below epoch epochs.now }
    ensures within { result ≤ length epochs.now }
{
    let mut count = 0;
    while count < epochs.len() && epochs[count] < epoch {
        count += 1;
    }
    count
}

fn count_same(epochs: &[usize], epoch: usize) -> usize
    ensures is { result ≡ count_same epoch epochs.now }
    ensures within { result ≤ length epochs.now }
{
    let mut count = 0;
    while count < epochs.len() && epochs[count] == epoch {
        count += 1;
    }
    count
}
