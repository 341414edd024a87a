// Fault texts: every form, the first bad line, and the limits.
use fault_text::read_faults;
use std::alloc::Global;
use std::test::Fail;
use storage_model::{ArrayHit, BusKind, Hit, Letter, TextEnd};

fn bad_line(alloc: Global, text: &[u8]) -> Option<u32> {
    match read_faults(alloc, text) {
        Err(TextEnd::Bad { line }) => Some(line),
        _ => None,
    }
}

fn array_hit(fetch: bool, n: u32, cut: bool, mask: u8) -> ArrayHit {
    ArrayHit {
        fetch,
        n,
        cut,
        mask,
    }
}

#[test]
fn every_fault_is_read(rt: HostRuntime) -> Result<(), Fail> {
    let faults = read_faults(
        rt.alloc(),
        b"turn hec\nbus 1 lost\nprogram 1 fail 0\nready ffffffff\nfetch 1 fail\ncut 0\nbus 3 noresp\nbus 4 data 1024\nprogram 4294967295 cut ff\nready 0\nfetch 2 fail\nbus 4294967294 late\ncut 4294967295\nturn x\n",
    )?;
    assert_eq!(rt; faults.ready.as_slice(), [0xffff_ffff, 0].as_slice());
    let bus = [
        (1, BusKind::Lost),
        (3, BusKind::NoResp),
        (4, BusKind::Bad(1024)),
        (4_294_967_294, BusKind::Late),
    ];
    for (k, (n, kind)) in bus.iter().enumerate() {
        let hit = Hit { n: *n, kind: *kind };
        assert_eq!(rt; faults.bus.as_slice().get(k), Some(&hit));
    }
    let array = [
        array_hit(false, 1, false, 0),
        array_hit(true, 1, false, 0),
        array_hit(false, 4_294_967_295, true, 0xff),
        array_hit(true, 2, false, 0),
    ];
    assert_eq!(rt; faults.array.as_slice(), array.as_slice());
    assert_eq!(rt; faults.cuts.as_slice(), [0, 4_294_967_295].as_slice());
    assert_eq!(rt;
        faults.turns.as_slice(),
        [Letter::Host, Letter::Engine, Letter::Card, Letter::Cut].as_slice()
    );
    Ok(())
}

#[test]
fn the_first_bad_fault_line_is_given(rt: HostRuntime) -> Result<(), Fail> {
    let bad: [(&[u8], u32); 12] = [
        (b"cut 1", 1),
        (b"ready 00\n", 1),
        (b"ready A\n", 1),
        (b"ready 100000000\n", 1),
        (b"bus 4294967295 lost\n", 1),
        (b"bus 1 data 1025\n", 1),
        (b"program 1 fail 100\n", 1),
        (b"fetch 1 cut\n", 1),
        (b"turn \n", 1),
        (b"bus 2 lost\nbus 2 late\n", 2),
        (b"cut 0\ncut 0\n", 2),
        (b"cut 5\nbus 4 lost\nfetch 3 fail\nprogram 2 cut 0\n\n", 5),
    ];
    for (text, line) in bad {
        assert_eq!(rt; bad_line(rt.alloc(), text), Some(line));
    }
    let mut text = Vec::new(rt.alloc());
    for _ in 0..4096u32 {
        text.extend_from_slice(b"turn hecxhecxhecxhecx\n")?;
    }
    assert_eq!(rt; read_faults(rt.alloc(), &text)?.turns.len(), 65_536);
    text.extend_from_slice(b"ready 0\n")?;
    assert_eq!(rt; bad_line(rt.alloc(), &text), Some(4097));
    Ok(())
}
