// Raw scripts: every form, and the first bad line.
use raw_text::{RawOp, read_raw};
use std::alloc::Global;
use std::test::Fail;
use storage_model::TextEnd;

fn bad_line(alloc: Global, text: &[u8]) -> Option<u32> {
    match read_raw(alloc, text) {
        Err(TextEnd::Bad { line }) => Some(line),
        _ => None,
    }
}

#[test]
fn every_operation_is_read(rt: HostRuntime) -> Result<(), Fail> {
    let ops = read_raw(
        rt.alloc(),
        b"poke 20010000 00ff\nfill 0 1048576 a5\npeek ffffffffffffffff 512\nw 28 1\nr 0c\ngo\nshow 4294967295\ndiscard\n",
    )?;
    match ops.as_slice() {
        [
            RawOp::Poke {
                at: 0x2001_0000,
                bytes,
            },
            RawOp::Fill {
                at: 0,
                len: 1_048_576,
                value: 0xa5,
            },
            RawOp::Peek {
                at: u64::MAX,
                len: 512,
            },
            RawOp::Write {
                reg: 0x28,
                value: 1,
            },
            RawOp::Read { reg: 0x0c },
            RawOp::Go,
            RawOp::Show { sector: u32::MAX },
            RawOp::Discard,
        ] => assert_eq!(rt; bytes.as_slice(), [0x00, 0xff].as_slice()),
        _ => panic!(rt; "other operations"),
    }
    Ok(())
}

#[test]
fn the_first_bad_script_line_is_given(rt: HostRuntime) {
    let bad: [(&[u8], u32); 14] = [
        (b"go", 1),
        (b"go \n", 1),
        (b"poke 0 0\n", 1),
        (b"poke 0 0A\n", 1),
        (b"poke 00 00\n", 1),
        (b"poke 10000000000000000 00\n", 1),
        (b"fill 0 1048577 00\n", 1),
        (b"fill 0 01 00\n", 1),
        (b"peek 0 513\n", 1),
        (b"w 28 100000000\n", 1),
        (b"r 028\n", 1),
        (b"show 4294967296\n", 1),
        (b"go\nr 28\nr 28", 3),
        (b"go\n\ngo\n", 2),
    ];
    for (text, line) in bad {
        assert_eq!(rt; bad_line(rt.alloc(), text), Some(line));
    }
}
