use cq_chain::Piece;
use host_mem::{HostMem, OutOfMemorySpace};
use piece_data::{read_block, write_block};
use std::test::Fail;
use storage_model::Block;

const BASE: u64 = 0x2000_0000;

#[test]
fn a_block_over_three_pieces(rt: HostRuntime) -> Result<(), Fail> {
    let mut mem = HostMem::start(rt.alloc(), BASE, 0x1000)?;
    let pieces = [
        Piece {
            at: 0x2000_0800,
            len: 7,
        },
        Piece {
            at: 0x2000_0000,
            len: 501,
        },
        Piece {
            at: 0x2000_0403,
            len: 4,
        },
    ];
    let mut block = Block([0; 512]);
    block.0[0] = 1;
    block.0[6] = 2;
    block.0[7] = 3;
    block.0[508] = 5;
    block.0[511] = 6;
    write_block(&mut mem, &pieces, 0, &block);
    for (from, byte) in [
        (0x800u32, 1),
        (0x806, 2),
        (0x807, 0),
        (0, 3),
        (0x403, 5),
        (0x406, 6),
    ] {
        assert_eq!(rt; mem.get(BASE + u64::from(from)), Ok(byte), "at {from}");
    }
    let mut back = Block([9; 512]);
    read_block(&mem, &pieces, 0, &mut back);
    assert!(rt; back.0 == block.0);

    assert_eq!(rt; mem.set(BASE + 0xfff, 5), Ok(()));
    assert_eq!(rt; mem.copy_in(BASE + 0xfff, &[7, 8]), Err(OutOfMemorySpace));
    assert_eq!(rt; mem.get(BASE + 0xfff), Ok(5));
    assert_eq!(rt; mem.get(BASE + 0x1000), Err(OutOfMemorySpace));
    assert_eq!(rt; mem.copy_out(u64::MAX, &mut back.0), Err(OutOfMemorySpace));
    assert_eq!(rt; mem.copy_in(0, &[]), Ok(()));
    Ok(())
}
