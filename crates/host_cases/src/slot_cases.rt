ghost use Rattle.std.specs.Prelude.{◌≤◌, ◌<◌, ◌+◌, ◌-◌, ◌^◌};

use cq_chain::{ChainFault, Piece, walk};
use cq_desc::DescFault;
use cq_task::{DropCause, SlotTask, TaskList, has_barrier, read_slot};
use cq_words::put64;
use host_mem::HostMem;
use std::alloc::Global;
use std::test::Fail;

// A memory of `len` bytes from `base` on, with these words at these places.
fn memory_of(alloc: Global, base: u64, len: u32, words: &[(u64, u64)]) -> Result<HostMem, Fail>
    requires { base + len ≤ 2 ^ 64 - 1 }
{
    let mut mem = HostMem::start(alloc, base, len)?;
    for (at, word) in words {
        let mut bytes = [0; 8];
        put64(&mut bytes, 0, *word);
        mem.copy_in(*at, &bytes)?;
    }
    Ok(mem)
}

fn refusal(mem: &HostMem, at: u64, want: u32) -> Option<ChainFault> {
    walk(mem, at, want, false).err()
}

/// A link to two pieces, in descriptors of 16 bytes.
#[test]
fn a_chain_of_wide_descriptors(rt: HostRuntime) -> Result<(), Fail> {
    let words = [
        (0x1_2000_0010, 0x2000_0400_0000_0031),
        (0x1_2000_0018, 1),
        (0x1_2000_0400, 0x2000_0200_0200_0021),
        (0x1_2000_0408, 1),
        (0x1_2000_0410, 0x2000_0600_0200_0023),
        (0x1_2000_0418, 1),
    ];
    let mem = memory_of(rt.alloc(), 0x1_2000_0000, 0x800, &words)?;
    let Ok(pieces) = walk(&mem, 0x1_2000_0010, 1024, true) else {
        panic!(rt; "refused");
    };
    let last = Piece {
        at: 0x1_2000_0600,
        len: 512,
    };
    assert!(rt; pieces.len() == 2 && !pieces.is_empty());
    assert!(rt; pieces.as_slice().last() == Some(&last));
    Ok(())
}

/// One chain for each fault.
#[test]
fn faulty_chains(rt: HostRuntime) -> Result<(), Fail> {
    let words = [
        (0x2001_0008, 0x2001_0600_0400_0023),
        (0x2001_0028, 0x2001_0200_0400_0023),
        (0x2001_0048, 0x2001_0048_0000_0031),
        (0x2001_0058, 0x0000_0000_0000_0003),
        (0x2001_0060, 0x0000_0000_0000_0029),
    ];
    let mem = memory_of(rt.alloc(), 0x2001_0000, 0x800, &words)?;
    let rows = [
        (0x2001_0008, 1024, Some(ChainFault::Hole)),
        (0x2001_0018, 512, Some(ChainFault::NotValid)),
        (0x2001_0028, 512, Some(ChainFault::Long)),
        (0x2001_0028, 1536, Some(ChainFault::Short)),
        (0x2001_0048, 512, Some(ChainFault::TooMany)),
        (0x2001_0058, 0, None),
        (0x2001_0060, 512, Some(ChainFault::BadAct)),
        (u64::MAX, 512, Some(ChainFault::Hole)),
    ];
    for (at, want, fault) in rows {
        assert!(rt; refusal(&mem, at, want) == fault, "at {at}");
    }
    Ok(())
}

/// What a slot asks for: the index and the argument of a direct command, or of a data task whether it reads, its blocks, its
/// start sector and the number of its pieces.
#[derive(Clone, Copy, PartialEq)]
enum Asked {
    Direct(u8, u32),
    Data(bool, u16, u32, usize),
}

fn task_of(mem: &HostMem, list: TaskList, slot: u8) -> Result<Asked, DropCause>
    requires { slot < 32 }
{
    match read_slot(mem, list, slot)? {
        SlotTask::Direct(desc) => Ok(Asked::Direct(desc.index, desc.arg)),
        SlotTask::Data(task) => {
            let desc = &task.desc;
            Ok(Asked::Data(desc.read, desc.blocks, desc.start, task.pieces.len()))
        }
    }
}

/// A direct command in slot 31, a read in slot 1, and slots that ask for nothing.
#[test]
fn slots_of_a_list(rt: HostRuntime) -> Result<(), Fail> {
    let words = [
        (0x2001_01f0, 0x0320_0101_0186_402f),
        (0x2001_0010, 0x0000_1000_0001_102f),
        (0x2001_0018, 0x2001_0200_0200_0023),
        (0x2001_0030, 0x0000_0000_0002_102f),
        (0x2001_0038, 0x2001_0200_0200_0023),
    ];
    let mem = memory_of(rt.alloc(), 0x2001_0000, 0x400, &words)?;
    let list = TaskList::of_registers(0x2001_0000, 0, 0x1001);
    assert!(rt; list.place_of(31) == Some(0x2001_01f0));
    assert!(rt; list.is_direct(31) && !list.is_direct(1));
    assert!(rt; has_barrier(&mem, list, 31) && !has_barrier(&mem, list, 1));
    let rows = [
        (31, Ok(Asked::Direct(6, 0x0320_0101))),
        (1, Ok(Asked::Data(true, 1, 0x1000, 1))),
        (2, Err(DropCause::Task(DescFault::NotValid))),
        (3, Err(DropCause::Chain(ChainFault::Short))),
    ];
    for (slot, wanted) in rows {
        assert!(rt;
            slot < 32 && task_of(&mem, list, slot) == wanted,
            "of slot {slot}"
        );
    }
    let outside = TaskList::of_registers(0xffff_ff00, 0xffff_ffff, 0x101);
    assert!(rt; task_of(&mem, outside, 31) == Err(DropCause::Chain(ChainFault::Hole)));
    Ok(())
}
