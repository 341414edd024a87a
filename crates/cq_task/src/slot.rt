ghost use Rattle.std.specs.Prelude.{◌≡◌, ◌↔◌, ◌+◌, ◌<◌, ◌^◌, Result, IfSome, IsSome, IsTrue, OnSome};
ghost use Rattle.host_mem.specs.Memory.{HasRange};
ghost use Rattle.cq_chain.specs.Descriptors.{size_of, word_at};
ghost use Rattle.cq_task.specs.declared.slot.SlotTask.{SlotTask};
ghost use Rattle.cq_task.specs.declared.slot.DropCause.{DropCause};
ghost use Rattle.cq_task.specs.Place.{chain_of, first_word};
ghost use Rattle.cq_task.specs.Meaning.{HasBarrier, HasFirst, Means, MeansData, MeansDirect};

use crate::{SLOTS, TaskList};
use cq_chain::{ChainFault, Pieces, walk};
use cq_desc::{DescFault, DirectDesc, TaskDesc, read_direct, read_task};
use cq_words::get64;
use host_mem::HostMem;

/// The bytes of a block.
pub const BLOCK_BYTES: u32 = 512;

/// A read or write of blocks, with the pieces of the memory where their bytes are: as many as the blocks have.
#[derive(Debug, Drop)]
pub struct DataTask {
    pub desc: TaskDesc,
    pub pieces: Pieces,
}

/// What a good slot asks for.
#[derive(Debug, Drop)]
pub enum SlotTask {
    Direct(DirectDesc),
    Data(DataTask),
}

/// Why a slot is dropped.
#[derive(Clone, Copy, Debug, PartialEq, Eq)]
pub enum DropCause {
    /// Its first descriptor is a bad one.
    Task(DescFault),
    /// Its chain is a bad one; or its first descriptor isn't in the memory, which is a `Hole`.
    Chain(ChainFault),
}

/// The first descriptor of a slot: its low word, and the address behind it.
#[derive(Clone, Copy)]
struct First {
    word: u64,
    chain: u64,
}

/// What a slot of the list asks for, or why it is dropped (JESD84-B51, annex B; the Linux driver writes the slots in
/// `cqhci_prep_task_desc` and `cqhci_prep_dcmd_desc`). First comes whether all of its first descriptor is in the
/// memory, below 2^64; then `read_direct` or `read_task` judges its low word; then `walk` the chain that begins behind
/// it, where it is a data task.
pub fn read_slot(mem: &HostMem, list: TaskList, slot: u8) -> Result<SlotTask, DropCause>
    requires { slot < SLOTS }
    ensures { (answer : Result SlotTask DropCause) → (result ≡ answer) ↔ Means mem.now list slot answer }
{
    let Some(first) = first_of(mem, list, slot) else {
        return Err(DropCause::Chain(ChainFault::Hole));
    };
    if list.is_direct(slot) {
        direct_task(first.word)
    } else {
        data_task(mem, first.word, first.chain, list.wide)
    }
}

/// Whether a slot of the list has the queue barrier bit, in a first descriptor that is in the memory and good. The chain
/// doesn't matter.
pub fn has_barrier(mem: &HostMem, list: TaskList, slot: u8) -> bool
    requires { slot < SLOTS }
    ensures { IsTrue result ↔ HasBarrier mem.now list slot }
{
    let Some(first) = first_of(mem, list, slot) else {
        return false;
    };
    if list.is_direct(slot) {
        match read_direct(first.word) {
            Ok(desc) => desc.barrier,
            Err(_) => false,
        }
    } else {
        match read_task(first.word) {
            Ok(desc) => desc.barrier,
            Err(_) => false,
        }
    }
}

fn direct_task(word: u64) -> Result<SlotTask, DropCause>
    ensures { (answer : Result SlotTask DropCause) → (result ≡ answer) ↔ MeansDirect word answer }
{
    match read_direct(word) {
        Ok(desc) => Ok(SlotTask::Direct(desc)),
        Err(fault) => Err(DropCause::Task(fault)),
    }
}

fn data_task(mem: &HostMem, word: u64, chain: u64, wide: bool) -> Result<SlotTask, DropCause>
    ensures { (answer : Result SlotTask DropCause) → (result ≡ answer) ↔ MeansData mem.now wide word chain answer }
{
    let desc = match read_task(word) {
        Ok(desc) => desc,
        Err(fault) => return Err(DropCause::Task(fault)),
    };
    match walk(mem, chain, u32::from(desc.blocks) * BLOCK_BYTES, wide) {
        Ok(pieces) => Ok(SlotTask::Data(DataTask { desc, pieces })),
        Err(fault) => Err(DropCause::Chain(fault)),
    }
}

fn first_of(mem: &HostMem, list: TaskList, slot: u8) -> Option<First>
    requires { slot < SLOTS }
    ensures inside { IsSome result ↔ HasFirst mem.now list slot }
    ensures word { IfSome result (λ first. first.word ≡ first_word mem.now list slot) }
    ensures chain { IfSome result (λ first. first.chain ≡ chain_of list slot) }
{
    let place = list.place_of(slot)?;
    let word = low_word(mem, place, list.wide)?;
    let chain = place + if list.wide { 16 } else { 8 };
    Some(First { word, chain })
}

/// The low word of the descriptor at an address, if all of it is in the memory.
fn low_word(mem: &HostMem, place: u64, wide: bool) -> Option<u64>
    ensures inside { IsSome result ↔ HasRange mem.now place (size_of wide) }
    ensures value { IfSome result (λ word. word ≡ word_at mem.now place) }
    ensures below { OnSome result (place + size_of wide < 2 ^ 64) }
{
    let low = word_at(mem, place)?;
    if wide {
        word_at(mem, place + 8)?;
    }
    Some(low)
}

fn word_at(mem: &HostMem, place: u64) -> Option<u64>
    ensures inside { IsSome result ↔ HasRange mem.now place 8 }
    ensures value { IfSome result (λ word. word ≡ word_at mem.now place) }
    ensures below { OnSome result (place + 8 < 2 ^ 64) }
{
    let mut bytes = [0; 8];
    match mem.copy_out(place, &mut bytes) {
        Ok(()) => Some(get64(&bytes, 0)),
        Err(_) => None,
    }
}
