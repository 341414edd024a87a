use cq_desc::{
    DescFault, DirectDesc, TaskDesc, Xfer, read_direct, read_task, read_xfer, write_direct,
    write_task, write_xfer,
};

/// The words of task descriptors: a read, a forced write and a reliable one.
#[test]
fn task_descriptors(rt: HostRuntime) {
    let read = TaskDesc {
        int: true,
        forced: false,
        context: 0,
        tag: false,
        read: true,
        high: false,
        barrier: false,
        reliable: false,
        blocks: 8,
        start: 0x1000,
    };
    assert!(rt; write_task(&read) == 0x0000_1000_0008_102f);
    assert!(rt; read_task(0x0000_1000_0008_102f) == Ok(read));
    assert!(rt; read_task(0x0000_1000_0008_102e) == Err(DescFault::NotValid));
    let forced = TaskDesc {
        int: false,
        forced: true,
        context: 9,
        read: false,
        high: true,
        ..read
    };
    assert!(rt; write_task(&forced) == 0x0000_1000_0008_24eb);
    let reliable = TaskDesc {
        forced: false,
        reliable: true,
        tag: true,
        barrier: true,
        ..forced
    };
    assert!(rt; read_task(0x0000_1000_0008_ecab) == Ok(reliable));
}

/// The words of a flush and of a status command.
#[test]
fn direct_commands(rt: HostRuntime) {
    let flush = DirectDesc {
        int: true,
        barrier: true,
        index: 6,
        timing: false,
        resp: 3,
        arg: 0x0320_0101,
    };
    assert!(rt; write_direct(&flush) == 0x0320_0101_0186_402f);
    assert!(rt; read_direct(0x0320_0101_0186_402f) == Ok(flush));
    assert!(rt; read_direct(0x0320_0201_0086_402f) == Err(DescFault::BadAct));
    let status = DirectDesc {
        int: false,
        index: 13,
        timing: true,
        resp: 2,
        arg: 0x0001_8000,
        ..flush
    };
    assert!(rt; write_direct(&status) == 0x0001_8000_014d_402b);
}

#[test]
fn transfer_descriptors(rt: HostRuntime) {
    let piece = Xfer::Piece {
        end: true,
        int: false,
        len: 65536,
        at: 0x1_2000_0000,
    };
    assert!(rt; write_xfer(&piece, true) == (0x2000_0000_0000_0023, 1));
    assert!(rt; read_xfer(0x2000_0000_0000_0023, 0xffff_ffff_0000_0001, true) == Ok(piece));
    assert!(rt; read_xfer(0x2000_0000_0000_0031, 1, false) == Ok(Xfer::Link { at: 0x2000_0000 }));
    assert!(rt; read_xfer(0x2000_0000_0000_0029, 1, false) == Err(DescFault::BadAct));
}
