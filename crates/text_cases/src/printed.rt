// Lines of traces and of raw scripts: what is printed, and that each is one piece.
use cq_chain::ChainFault;
use cq_desc::DescFault;
use cq_task::DropCause;
use io_edge::MemSink;
use raw_lines::{Peeked, RawLine, put_raw_line};
use std::alloc::Global;
use std::test::Fail;
use storage_model::{Block, TextEnd};
use trace_text::{put_item, read_items};

// A sink whose call after so many fails.
fn sink_of(alloc: Global, calls: u32) -> Result<MemSink, Fail> {
    let mut fails = Vec::new(alloc);
    fails.push(calls.saturating_add(1))?;
    Ok(MemSink::with_room(alloc, 4096, fails)?)
}

#[test]
fn every_trace_line_is_read_and_printed(rt: HostRuntime) -> Result<(), Fail> {
    let text =
        b"card 8 16 64\ncard 8 1 off\nissue 2 31\nparams 1 1\naddress 2 1\npoll 5 00000003\nphase 6 1 1\nphase 7 2 65535 kept\ndiscard 8\nbus 1 lost 3\nbus 2 noresp -\nbus 3 data 1024 3\nbus 4 late 4294967295\nflash -\nflash 9\nrecover\nirq 80000000\n1 ok\n2 data\nfill aa\n3 status 00000900\n4 fault bus\n5 fault flash\n6 refused range\n7 refused align\ncut\n8 lost\non\nleft 4294967295 fill 00\nturn h\nturn e\nturn c\nturn x\noff ok\noff fault\noff dead\noff image\n";
    let items = read_items(rt.alloc(), text)?;
    assert_eq!(rt; items.len(), 37);
    let mut out = sink_of(rt.alloc(), 37)?;
    for item in items.as_slice() {
        put_item(item, &mut out)?;
    }
    assert_eq!(rt; out.bytes(), text.as_slice());
    assert!(rt; put_item(items.at(0), &mut out).is_err());
    Ok(())
}

#[test]
fn the_first_bad_trace_line_is_given(rt: HostRuntime) {
    let bad: [(&[u8], u32); 12] = [
        (b"cut", 1),
        (b"\n", 1),
        (b"issue 01 0\n", 1),
        (b"issue 1 256\n", 1),
        (b"poll 1 0000000A\n", 1),
        (b"phase 1 1 1 kept \n", 1),
        (b"4294967296 ok\n", 1),
        (b"bus 1 data 65536 -\n", 1),
        (b"1 refused unit\n", 1),
        (b"00\n", 1),
        (b"off\n", 1),
        (b"cut\non\nleft 0 fill 0\n", 3),
    ];
    for (text, line) in bad {
        let found = match read_items(rt.alloc(), text) {
            Err(TextEnd::Bad { line }) => Some(line),
            _ => None,
        };
        assert_eq!(rt; found, Some(line));
    }
}

#[test]
fn every_raw_line_is_printed(rt: HostRuntime) -> Result<(), Fail> {
    let causes = [
        DropCause::Task(DescFault::NotValid),
        DropCause::Task(DescFault::BadAct),
        DropCause::Chain(ChainFault::NotValid),
        DropCause::Chain(ChainFault::BadAct),
        DropCause::Chain(ChainFault::Hole),
        DropCause::Chain(ChainFault::Long),
        DropCause::Chain(ChainFault::Short),
        DropCause::Chain(ChainFault::TooMany),
    ];
    let lines = [
        RawLine::Done { slot: 31 },
        RawLine::Stopped {
            slot: 0,
            response: 0x80_0900,
        },
        RawLine::Memory {
            bytes: Peeked::of(&[0x00, 0x0f, 0xff]),
        },
        RawLine::Register {
            reg: 0x08,
            value: 0x101,
        },
        RawLine::Sector {
            value: Block([0xa5; 512]),
        },
        RawLine::Outside,
        RawLine::NoRegister { reg: 0xfc },
        RawLine::Unread,
    ];
    let mut out = sink_of(rt.alloc(), 16)?;
    for cause in causes {
        put_raw_line(&RawLine::Dropped { slot: 3, cause }, &mut out)?;
    }
    for line in &lines {
        put_raw_line(line, &mut out)?;
    }
    let text =
        b"task 3 bad notvalid\ntask 3 bad badact\ntask 3 bad notvalid\ntask 3 bad badact\ntask 3 bad hole\ntask 3 bad long\ntask 3 bad short\ntask 3 bad toomany\ntask 31 ok\ntask 0 error 00800900\nm 000fff\nr 08 00000101\ns fill a5\noutside\nnoreg fc\nunread\n";
    assert_eq!(rt; out.bytes(), text.as_slice());
    assert!(rt; put_raw_line(&RawLine::Unread, &mut out).is_err());
    Ok(())
}

#[test]
fn the_longest_lines_are_printed(rt: HostRuntime) -> Result<(), Fail> {
    let mut value = [0; 512];
    value[511] = 1;
    let mut out = sink_of(rt.alloc(), 2)?;
    let bytes = Peeked::of(&value);
    put_raw_line(&RawLine::Memory { bytes }, &mut out)?;
    let value = Block(value);
    put_raw_line(&RawLine::Sector { value }, &mut out)?;
    let mut text = Vec::new(rt.alloc());
    for first in [b'm', b's'] {
        text.push(first)?;
        text.push(b' ')?;
        text.extend_from_slice(&[b'0'; 1023])?;
        text.extend_from_slice(b"1\n")?;
    }
    assert_eq!(rt; out.bytes(), text.as_slice());
    Ok(())
}
