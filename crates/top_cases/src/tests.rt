ghost use Rattle.std.specs.Prelude.{◌≤◌};
ghost use Rattle.image_form.specs.Form.{gate_number};

use array_edge::MemArray;
use cqmmc_top::run_command;
use image_form::{Gate, Super, write_gate, write_super};
use io_edge::{EmptySource, MemSink, MemSource};
use std::alloc::Global;
use std::test::Fail;
use storage_model::{ArrayHit, ArrayHits, Block, BlockList, Bytes, NoMemory};

const RUN: &str = "run image requests faults";

const RAW: &str = "raw image script";

const LIST: &str = "extcsd image";

const READ: &str = "read 0 1\n";

const READ_TRACE: &str = "\
card 8 16 64
issue 1 0
params 1 1
address 2 1
poll 3 00000001
phase 4 1 1
irq 00000001
1 data
fill 00
off ok
";

// Two blocks of aa, which stay in the cache up to the last flush: the array is written behind the answer.
const WRITE: &str = "write 0 2 fill aa\n";

const WRITE_TRACE: &str = "\
card 8 16 64
issue 1 0
params 1 1
address 2 1
poll 3 00000001
phase 4 1 2
irq 00000001
1 ok
";

// Requests of all kinds: writes into the cache, behind a barrier, and kept at once, a flush and a read.
const KINDS: &str = "\
set depth 1
write 0 2 fill aa
barrier
write 1 2 fill bb reliable
write 0 1 fill cc forced
flush
read 0 4
";

const READ_TWO: &str = "read 0 2\n";

// Written at the close of the phase, by programs 1 to 4: the data, the gate ajar, the sector, the gate shut.
const RELIABLE: &str = "write 0 1 fill aa reliable\n";

const RELIABLE_CUT: &str = "\
card 8 16 64
issue 1 0
params 1 1
address 2 1
poll 3 00000001
phase 4 1 1
cut
1 lost
";

// A block of aa to sector 0, which stays in the cache up to the last flush.
const CACHED: &str = "\
fill 20000000 512 aa
poke 20010000 2f000100000000002300000200000020
w 20 20010000
w 08 1
w 28 1
go
r 4c
";

const CACHED_SHOWN: &str = "card 8 31 64\ntask 0 ok\nnoreg 4c\noff ok\n";

// The same by a forced task, which is written to the array at the close of its phase. Where that fails the block stays in the
// cache, and the last flush writes it.
const FORCED: &str = "\
fill 20000000 512 aa
poke 20010000 6f000100000000002300000200000020
w 20 20010000
w 08 1
w 28 1
go
";

// An image of 8 zero sectors with this gate, over which these calls fail.
fn image(alloc: Global, gate: Gate, hits: &[ArrayHit]) -> Result<MemArray, NoMemory>
    requires { gate_number gate ≤ 8 }
{
    let mut pages = BlockList::from_vec(vec![in alloc; Block([0; 512]); 16]?);
    let first = Super {
        version: 1,
        sectors: 8,
    };
    pages.set(0, write_super(first));
    pages.set(1, write_gate(gate));
    let hits = ArrayHits::from_vec(hits.to_vec(alloc)?);
    Ok(MemArray::over(pages, hits))
}

fn fetch_fails(n: u32) -> ArrayHit {
    ArrayHit {
        fetch: true,
        n,
        cut: false,
        mask: 0,
    }
}

fn program_fails(n: u32) -> ArrayHit {
    ArrayHit {
        fetch: false,
        n,
        cut: false,
        mask: 0x55,
    }
}

fn cut(n: u32) -> ArrayHit {
    ArrayHit {
        fetch: false,
        n,
        cut: true,
        mask: 0,
    }
}

// The source of a text, of which these calls fail.
fn source(alloc: Global, text: &str, fails: &[u32]) -> Result<MemSource, NoMemory> {
    let bytes = Bytes::from_vec(text.as_bytes().to_vec(alloc)?);
    Ok(MemSource::over(bytes, fails.to_vec(alloc)?))
}

fn room(alloc: Global) -> Result<MemSink, NoMemory> {
    MemSink::with_room(alloc, 4096, Vec::new(alloc))
}

// Runs the command that the words call.
fn run_words(
    alloc: Global,
    text: &str,
    first: &mut MemSource,
    second: &mut MemSource,
    array: MemArray,
    out: &mut MemSink,
) -> Result<(u8, MemArray), NoMemory> {
    let mut words = Vec::new(alloc);
    for word in text.split(' ') {
        words.push(String::from_str(alloc, word)?)?;
    }
    let third = &mut EmptySource::new();
    let (status, array, _) = run_command(alloc, &words, array, first, second, third, out);
    Ok((status, array))
}

// Runs it over a first text and an empty second one.
fn run_text(
    alloc: Global,
    words: &str,
    text: &str,
    array: MemArray,
    out: &mut MemSink,
) -> Result<(u8, MemArray), NoMemory> {
    let mut first = source(alloc, text, &[])?;
    let mut second = source(alloc, "", &[])?;
    run_words(alloc, words, &mut first, &mut second, array, out)
}

// A source that fails at its first call, or at the one that would tell the text's end. The gate is left ajar.
#[test]
fn sources_fail(rt: HostRuntime) -> Result<(), Fail> {
    let alloc = rt.alloc();
    let rows = [
        (RUN, [1].as_slice(), [].as_slice()),
        (RUN, &[2], &[]),
        (RUN, &[], &[1]),
        (RAW, &[1], &[]),
        (RAW, &[2], &[]),
    ];
    for (words, first, second) in rows {
        let mut out = room(alloc)?;
        let mut first = source(alloc, READ, first)?;
        let mut second = source(alloc, "", second)?;
        let before = image(alloc, Gate::Ajar(3), &[])?;
        let array = image(alloc, Gate::Ajar(3), &[])?;
        let answer = run_words(alloc, words, &mut first, &mut second, array, &mut out)?;
        assert_eq!(rt; answer.0, 4, "of {words}");
        assert_eq!(rt; out.bytes(), b"read fault\n".as_slice(), "of {words}");
        assert!(rt;
            answer.1.contents().as_slice() == before.contents().as_slice(),
            "of {words}"
        );
    }
    Ok(())
}

// A sink that takes a byte at a time takes the same text, and one that fails after so many bytes takes just these.
#[test]
fn sink_takes_single_bytes(rt: HostRuntime) -> Result<(), Fail> {
    let alloc = rt.alloc();
    let rows = [
        (RUN, READ, READ_TRACE, 16),
        (RAW, CACHED, CACHED_SHOWN, 1),
        ("new image 8", "", "new 8\n", 1),
        ("foo", "", "usage\n", 1),
    ];
    for (words, text, shown, step) in rows {
        for k in 0..1000u32 {
            let put = 1 + step * k;
            let mut out = MemSink::by_steps(alloc, 4096, 1, vec![in alloc; put]?)?;
            let array = image(alloc, Gate::Shut, &[])?;
            let answer = run_text(alloc, words, text, array, &mut out)?;
            let taken = shown.len().min(put as usize - 1);
            assert_eq!(rt; out.bytes(), &shown.as_bytes()[..taken], "of {words}");
            if taken == shown.len() {
                assert!(rt; answer.0 != 5, "of {words}");
                break;
            }
            assert_eq!(rt; answer.0, 5, "of {words}");
        }
    }
    Ok(())
}

// A sink that fails at each of its calls in turn, over requests of all kinds, took a front of the whole text.
#[test]
fn sink_fails_at_each_piece(rt: HostRuntime) -> Result<(), Fail> {
    let alloc = rt.alloc();
    let mut whole = room(alloc)?;
    let array = image(alloc, Gate::Shut, &[])?;
    let answer = run_text(alloc, RUN, KINDS, array, &mut whole)?;
    assert_eq!(rt; answer.0, 0);
    let mut pieces = 0u32;
    for k in 1..1000u32 {
        let mut out = MemSink::with_room(alloc, 4096, vec![in alloc; k]?)?;
        let array = image(alloc, Gate::Shut, &[])?;
        let answer = run_text(alloc, RUN, KINDS, array, &mut out)?;
        assert!(rt; whole.bytes().starts_with(out.bytes()), "at piece {k}");
        if answer.0 == 0 {
            assert_eq!(rt; out.bytes(), whole.bytes(), "at piece {k}");
            break;
        }
        assert_eq!(rt; answer.0, 5, "at piece {k}");
        assert!(rt; out.bytes().len() < whole.bytes().len(), "at piece {k}");
        pieces = k;
    }
    assert!(rt; pieces >= 40, "{pieces} pieces");
    Ok(())
}

// An opening finishes the gate by a program of sector 3, and begins again where that is cut, at most 8 times in a row.
#[test]
fn openings_are_cut(rt: HostRuntime) -> Result<(), Fail> {
    let alloc = rt.alloc();
    let rows = [
        (RUN, "card 8 16 64\noff ok\n"),
        (RAW, "card 8 31 64\noff ok\n"),
    ];
    for (words, shown) in rows {
        for cuts in 1..=8u32 {
            let mut hits = Vec::new(alloc);
            for n in 1..=cuts {
                hits.push(cut(n))?;
            }
            let mut out = room(alloc)?;
            let array = image(alloc, Gate::Ajar(3), &hits)?;
            let answer = run_text(alloc, words, "", array, &mut out)?;
            let (status, text) = if cuts < 8 {
                (0, shown)
            } else {
                (8, "no power\n")
            };
            assert_eq!(rt; answer.0, status, "after {cuts}");
            assert_eq!(rt; out.bytes(), text.as_bytes(), "after {cuts}");
        }
    }
    Ok(())
}

// How many pages are aa throughout.
fn count_written(pages: &BlockList) -> usize {
    let pages = pages.as_slice().iter();
    pages.filter(|page| **page == Block([0xaa; 512])).count()
}

// A call of the array that fails or is cut. A row has the words and the first text, the call, and what comes of it: the
// status, the number of pages that are written whole, and the lines.
#[test]
fn array_fails(rt: HostRuntime) -> Result<(), Fail> {
    let alloc = rt.alloc();
    let none = "card 8 16 64\nissue 1 0\nparams 1 1\naddress 2 1\npoll 3 00000001\nphase 4 1 0\n";
    let one = "card 8 16 64\nissue 1 0\nparams 1 1\naddress 2 1\npoll 3 00000001\nphase 4 1 1\n";
    let failed = "flash 1\n1 fault flash\nrecover\ndiscard 5\noff ok\n";
    let left = "cut\non\nleft 0 fill 00\nleft 1 fill 00\noff ok\n";
    let half = "cut\non\nleft 0 fill aa\nleft 1 fill 00\noff ok\n";
    let written = "card 8 31 64\ntask 0 ok\nnoreg 4c\n";
    let refused = "card 8 31 64\ntask 0 error 00080900\n";
    let rows = [
        (
            RUN,
            WRITE,
            program_fails(1),
            7,
            0,
            WRITE_TRACE,
            "off fault\n",
        ),
        (
            RUN,
            WRITE,
            program_fails(2),
            7,
            1,
            WRITE_TRACE,
            "off fault\n",
        ),
        (RUN, WRITE, program_fails(3), 0, 2, WRITE_TRACE, "off ok\n"),
        (RUN, WRITE, cut(1), 0, 0, WRITE_TRACE, left),
        (RUN, WRITE, cut(2), 0, 1, WRITE_TRACE, half),
        (RUN, READ_TWO, fetch_fails(1), 7, 0, "array fault\n", ""),
        (RUN, READ_TWO, fetch_fails(2), 7, 0, "array fault\n", ""),
        (RUN, READ_TWO, fetch_fails(3), 0, 0, none, failed),
        (RUN, READ_TWO, fetch_fails(4), 0, 0, one, failed),
        (RAW, CACHED, fetch_fails(1), 7, 0, "array fault\n", ""),
        (RAW, CACHED, fetch_fails(2), 7, 0, "array fault\n", ""),
        (RAW, CACHED, program_fails(1), 7, 0, written, "off fault\n"),
        (RAW, CACHED, cut(1), 8, 0, written, "off dead\n"),
        (RAW, FORCED, cut(1), 8, 0, "card 8 31 64\n", "off dead\n"),
        (RAW, FORCED, program_fails(1), 0, 1, refused, "off ok\n"),
        (
            RAW,
            "show 0\n",
            fetch_fails(3),
            0,
            0,
            "card 8 31 64\nunread\n",
            "off ok\n",
        ),
        (LIST, "", fetch_fails(2), 7, 0, "array fault\n", ""),
        (
            "new image 8",
            "",
            program_fails(17),
            7,
            0,
            "array fault\n",
            "",
        ),
        ("new image 8", "", cut(17), 8, 0, "no power\n", ""),
        ("new image 9", "", program_fails(1), 6, 0, "bad image\n", ""),
    ];
    for (words, text, hit, status, written, lines, last) in rows {
        let mut out = room(alloc)?;
        let array = image(alloc, Gate::Shut, &[hit])?;
        let answer = run_text(alloc, words, text, array, &mut out)?;
        assert_eq!(rt; answer.0, status, "of {words} at {hit:?}");
        assert!(rt;
            out.bytes().starts_with(lines.as_bytes()),
            "of {words} at {hit:?}"
        );
        assert_eq!(rt;
            &out.bytes()[lines.len()..],
            last.as_bytes(),
            "of {words} at {hit:?}"
        );
        assert_eq!(rt;
            count_written(answer.1.contents()),
            written,
            "of {words} at {hit:?}"
        );
    }
    Ok(())
}

// A cut in the last flush, behind which the array fails: at the opening, or where a sector that may have changed is read.
#[test]
fn array_fails_behind_a_cut(rt: HostRuntime) -> Result<(), Fail> {
    let alloc = rt.alloc();
    for (n, last) in [(3, "cut\noff fault\n"), (5, "cut\non\noff fault\n")] {
        let mut out = room(alloc)?;
        let array = image(alloc, Gate::Shut, &[cut(1), fetch_fails(n)])?;
        let answer = run_text(alloc, RUN, WRITE, array, &mut out)?;
        assert_eq!(rt; answer.0, 7, "at fetch {n}");
        assert!(rt;
            out.bytes().starts_with(WRITE_TRACE.as_bytes()),
            "at fetch {n}"
        );
        assert_eq!(rt;
            &out.bytes()[WRITE_TRACE.len()..],
            last.as_bytes(),
            "at fetch {n}"
        );
    }
    Ok(())
}

// A cut of the program of the sector, and of that in so many openings behind it: the gate stays ajar.
#[test]
fn openings_are_cut_behind_a_cut(rt: HostRuntime) -> Result<(), Fail> {
    let alloc = rt.alloc();
    for openings in 0..=8u32 {
        let mut hits = Vec::new(alloc);
        let mut lines = Vec::new(alloc);
        for n in 0..=openings {
            hits.push(cut(3 + n))?;
        }
        for _ in 0..openings {
            lines.extend_from_slice(b"cut\n")?;
        }
        let (status, last) = if openings < 8 {
            (0, b"on\nleft 0 fill aa\noff ok\n".as_slice())
        } else {
            (8, b"off dead\n".as_slice())
        };
        lines.extend_from_slice(last)?;
        let mut out = room(alloc)?;
        let array = image(alloc, Gate::Shut, &hits)?;
        let answer = run_text(alloc, RUN, RELIABLE, array, &mut out)?;
        assert_eq!(rt; answer.0, status, "after {openings}");
        assert!(rt;
            out.bytes().starts_with(RELIABLE_CUT.as_bytes()),
            "after {openings}"
        );
        assert_eq!(rt;
            &out.bytes()[RELIABLE_CUT.len()..],
            lines.as_slice(),
            "after {openings}"
        );
    }
    Ok(())
}
