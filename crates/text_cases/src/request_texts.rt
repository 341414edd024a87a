// Request texts: settings and requests of every form, the first bad line, and the limits.
use request_text::read_requests;
use std::alloc::Global;
use std::test::Fail;
use storage_model::{Fill, Job, TextEnd, block_of};

fn bad_line(alloc: Global, text: &[u8]) -> Option<u32> {
    match read_requests(alloc, text) {
        Err(TextEnd::Bad { line }) => Some(line),
        _ => None,
    }
}

// `front`, `count` times `piece`, and `end`.
fn repeated(
    alloc: Global,
    front: &[u8],
    piece: &[u8],
    count: usize,
    end: &[u8],
) -> Result<Vec<u8>, Fail> {
    let mut text = Vec::new(alloc);
    text.extend_from_slice(front)?;
    for _ in 0..count {
        text.extend_from_slice(piece)?;
    }
    text.extend_from_slice(end)?;
    Ok(text)
}

fn write(sector: u32, blocks: u16, fill: Fill, forced: bool, reliable: bool, high: bool) -> Job {
    Job::Write {
        sector,
        blocks,
        fill,
        forced,
        reliable,
        high,
    }
}

#[test]
fn every_request_is_read(rt: HostRuntime) -> Result<(), Fail> {
    let text = repeated(
        rt.alloc(),
        b"set coalesce 31\nset desc 128\nset cache off\nset depth 1\nread 4294967295 1024\nread 0 1 high\nwrite 7 2 fill 0a forced high\nwrite 8 3 ramp 255 reliable\nwrite 5 2 hex ",
        b"0f",
        1024,
        b" forced reliable high\nflush\nbarrier\nstatus\nwrite 1 1 hex ",
    )?;
    let text = repeated(rt.alloc(), &text, b"a9", 512, b"\n")?;
    let plan = read_requests(rt.alloc(), &text)?;
    assert_eq!(rt; (plan.depth, plan.lines, plan.coalesce), (1, 1024, 31));
    assert!(rt; plan.through && plan.wide);
    let wanted = [
        Job::Read {
            sector: 4_294_967_295,
            blocks: 1024,
            high: false,
        },
        Job::Read {
            sector: 0,
            blocks: 1,
            high: true,
        },
        write(7, 2, Fill::Same(10), true, false, true),
        write(8, 3, Fill::Ramp(255), false, true, false),
        write(5, 2, Fill::Listed(0), true, true, true),
        Job::Flush,
        Job::Barrier,
        Job::Status,
        write(1, 1, Fill::Listed(2), false, false, false),
    ];
    assert_eq!(rt; plan.jobs.as_slice(), wanted.as_slice());
    assert_eq!(rt; plan.blocks.len(), 3);
    assert_eq!(rt; block_of(&plan, Fill::Listed(0), 1).0, [0x0f; 512]);
    assert_eq!(rt; block_of(&plan, Fill::Listed(2), 0).0, [0xa9; 512]);
    let plain = read_requests(rt.alloc(), b"")?;
    assert_eq!(rt; (plain.depth, plain.lines, plain.coalesce), (16, 64, 0));
    assert!(rt; !plain.through && !plain.wide && plain.jobs.is_empty());
    Ok(())
}

#[test]
fn the_first_bad_request_line_is_given(rt: HostRuntime) -> Result<(), Fail> {
    let bad: [(&[u8], u32); 16] = [
        (b"flush", 1),
        (b"flush\n\n", 2),
        (b"flush\r\n", 1),
        (b"set depth 32\n", 1),
        (b"set depth 04\n", 1),
        (b"set cache 1025\n", 1),
        (b"set depth 4\nset cache off\nset depth 4\n", 3),
        (b"set cache off\nset cache 8\n", 2),
        (b"flush\nset depth 4\n", 2),
        (b"read 4294967296 1\n", 1),
        (b"read 0 0\n", 1),
        (b"read 0  1\n", 1),
        (b"write 0 1 fill AA\n", 1),
        (b"write 0 1 ramp 256\n", 1),
        (b"write 0 1 fill 11 reliable forced\n", 1),
        (b"write 0 1 hex 00\n", 1),
    ];
    for (text, line) in bad {
        assert_eq!(rt; bad_line(rt.alloc(), text), Some(line));
    }
    Ok(())
}

#[test]
fn requests_have_limits(rt: HostRuntime) -> Result<(), Fail> {
    let most = repeated(rt.alloc(), b"set depth 4\n", b"status\n", 65_536, b"")?;
    assert_eq!(rt; read_requests(rt.alloc(), &most)?.jobs.len(), 65_536);
    let more = repeated(rt.alloc(), &most, b"status\n", 1, b"")?;
    assert_eq!(rt; bad_line(rt.alloc(), &more), Some(65_538));
    let full = repeated(rt.alloc(), b"", b"read 0 1024\n", 128, b"")?;
    assert_eq!(rt; read_requests(rt.alloc(), &full)?.jobs.len(), 128);
    let over = repeated(rt.alloc(), &full, b"flush\nread 0 1\n", 1, b"")?;
    assert_eq!(rt; bad_line(rt.alloc(), &over), Some(130));
    Ok(())
}
