use drv_ring::Layout;
use host_mem::HostMem;
use std::alloc::Global;
use std::test::Fail;
use storage_model::{Block, BlockList, Fill, Job, JobList, Plan};

fn plan_of(alloc: Global) -> Plan {
    Plan {
        depth: 2,
        lines: 64,
        through: false,
        wide: false,
        coalesce: 0,
        jobs: JobList::new(alloc),
        blocks: BlockList::new(alloc),
    }
}

fn has_bytes(mem: &HostMem, at: u64, wanted: &[u8]) -> bool {
    let mut place = at;
    for byte in wanted {
        if mem.get(place) != Ok(*byte) {
            return false;
        }
        place = place.saturating_add(1);
    }
    true
}

#[test]
fn a_write_of_one_block(rt: HostRuntime) -> Result<(), Fail> {
    let base = 0x2000_0000;
    let layout = Layout::new(base, 2, false);
    let mut mem = HostMem::start(rt.alloc(), base, layout.size())?;
    let job = Job::Write {
        sector: 0,
        blocks: 1,
        fill: Fill::Same(0xaa),
        forced: false,
        reliable: false,
        high: false,
    };
    layout.write_job(&mut mem, 0, &job, &plan_of(rt.alloc()), true);
    let slot = [0x2f, 0, 1, 0, 0, 0, 0, 0, 0x31, 0, 0, 0, 0, 4, 0, 0x20];
    assert!(rt; has_bytes(&mem, base, &slot));
    assert!(rt; has_bytes(&mem, base + 0x400, &[0x23, 0, 0, 2, 0, 0, 2, 0x20]));
    let mut block = Block([0; 512]);
    layout.read_block(&mem, 0, 0, &mut block);
    assert!(rt; block.0 == [0xaa; 512]);
    Ok(())
}

#[test]
fn a_read_of_four_chunks(rt: HostRuntime) -> Result<(), Fail> {
    let base = 0x2000_0000;
    let layout = Layout::new(base, 2, false);
    let mut mem = HostMem::start(rt.alloc(), base, layout.size())?;
    let job = Job::Read {
        sector: 0,
        blocks: 1024,
        high: false,
    };
    layout.write_job(&mut mem, 1, &job, &plan_of(rt.alloc()), true);
    assert!(rt; has_bytes(&mem, base + 0x14f8, &[0x21, 0, 0, 0x10, 0, 0xf0, 5, 0x20]));
    assert!(rt; has_bytes(&mem, base + 0x1500, &[0x31, 0, 0, 0, 0, 0x18, 0, 0x20]));
    assert!(rt; has_bytes(&mem, base + 0x1800, &[0x21, 0, 0, 0x10, 0, 0x10, 6, 0x20]));
    Ok(())
}

#[test]
fn the_direct_commands(rt: HostRuntime) -> Result<(), Fail> {
    let base = 0x2000_0000;
    let layout = Layout::new(base, 1, false);
    let mut mem = HostMem::start(rt.alloc(), base, layout.size())?;
    let plan = plan_of(rt.alloc());
    layout.write_job(&mut mem, 31, &Job::Flush, &plan, true);
    let flush = [0x2f, 0x40, 0x86, 1, 1, 1, 0x20, 3, 0, 0, 0, 0, 0, 0, 0, 0];
    assert!(rt; has_bytes(&mem, base + 0x1f0, &flush));
    layout.write_job(&mut mem, 31, &Job::Barrier, &plan, true);
    assert!(rt; has_bytes(&mem, base + 0x1f0, &[0x2f, 0x40, 0x86, 1, 1, 2, 0x20, 3]));
    layout.write_job(&mut mem, 31, &Job::Status, &plan, true);
    assert!(rt; has_bytes(&mem, base + 0x1f0, &[0x2f, 0x40, 0x4d, 1, 0, 0, 1, 0]));
    Ok(())
}

#[test]
fn descriptors_of_16_bytes(rt: HostRuntime) -> Result<(), Fail> {
    let base = 0x1_2000_0000;
    let layout = Layout::new(base, 16, true);
    let mut mem = HostMem::start(rt.alloc(), base, layout.size())?;
    let job = Job::Write {
        sector: 0,
        blocks: 9,
        fill: Fill::Same(0xaa),
        forced: false,
        reliable: false,
        high: false,
    };
    layout.write_job(&mut mem, 0, &job, &plan_of(rt.alloc()), true);
    assert!(rt;
        has_bytes(
            &mem,
            base,
            &[0x2f, 0, 9, 0, 0, 0, 0, 0, 0, 0, 0, 0, 0, 0, 0, 0]
        )
    );
    let link = [0x31, 0, 0, 0, 0, 4, 0, 0x20, 1, 0, 0, 0, 0, 0, 0, 0];
    assert!(rt; has_bytes(&mem, base + 16, &link));
    let first = [0x21, 0, 0, 0x10, 0, 0, 2, 0x20, 1, 0, 0, 0, 0, 0, 0, 0];
    assert!(rt; has_bytes(&mem, base + 0x400, &first));
    let last = [0x23, 0, 0, 2, 0, 0, 3, 0x20, 1, 0, 0, 0, 0, 0, 0, 0];
    assert!(rt; has_bytes(&mem, base + 0x410, &last));
    assert!(rt; has_bytes(&mem, base + 0x3_0000, &[0xaa; 8]));
    Ok(())
}
