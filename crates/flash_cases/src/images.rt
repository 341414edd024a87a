ghost use Rattle.std.specs.Prelude.{◌≡◌, ◌≤◌, IfOk, length};
ghost use Rattle.image_form.specs.Form.{gate_number};

use array_edge::MemArray;
use image_form::{Gate, Super, write_gate, write_super};
use intent_store::{Intent, StartEnd, StoreEnd};
use std::alloc::Global;
use std::process::Abort;
use std::test::Fail;
use storage_model::{ArrayHit, ArrayHits, Block, BlockList, NoMemory};

// An image of 8 zero sectors with this gate and an intent page of 0xee, over which these calls fail.
fn image(alloc: Global, gate: Gate, hits: &[ArrayHit]) -> Result<MemArray, NoMemory>
    requires { gate_number gate ≤ 8 }
    ensures { IfOk result (λ array. length array.pages ≡ 16) }
{
    let mut pages = BlockList::from_vec(vec![in alloc; Block([0; 512]); 16]?);
    let first = Super {
        version: 1,
        sectors: 8,
    };
    pages.set(0, write_super(first));
    pages.set(1, write_gate(gate));
    pages.set(2, Block([0xee; 512]));
    let hits = ArrayHits::from_vec(hits.to_vec(alloc)?);
    Ok(MemArray::over(pages, hits))
}

// A program that is cut, with the first half of its page new.
fn cut(n: u32) -> ArrayHit {
    ArrayHit {
        fetch: false,
        n,
        cut: true,
        mask: 0x0f,
    }
}

#[test]
fn ajar_gate_is_finished(rt: HostRuntime) -> Result<(), Fail> {
    let mut array = image(rt.alloc(), Gate::Ajar(3), &[])?;
    let mut intent = Intent::start(&mut array)?;
    let mut block = Block([0; 512]);
    assert_eq!(rt; intent.sectors(), 8);
    assert_eq!(rt; intent.read(3, &mut block, &mut array), Ok(()));
    assert_eq!(rt; block, Block([0xee; 512]));
    assert_eq!(rt; intent.program(3, &Block([0xaa; 512]), &mut array), Ok(()));
    assert_eq!(rt; intent.read(3, &mut block, &mut array), Ok(()));
    assert_eq!(rt; block, Block([0xaa; 512]));
    Ok(())
}

// What sector 5 shows after its whole program was cut at program `n` and the image was opened again.
fn shown_after_cut(rt: &impl Abort, alloc: Global, n: u32) -> Result<Block, Fail> {
    let mut array = image(alloc, Gate::Shut, &[cut(n)])?;
    let mut intent = Intent::start(&mut array)?;
    let mut block = Block([0xaa; 512]);
    assert_eq!(rt; intent.sectors(), 8);
    assert_eq!(rt;
        intent.program_whole(5, &block, &mut array),
        Err(StoreEnd::PowerLost)
    );
    let mut intent = Intent::start(&mut array)?;
    assert_eq!(rt; intent.sectors(), 8);
    assert_eq!(rt; intent.read(5, &mut block, &mut array), Ok(()));
    Ok(block)
}

#[test]
fn sector_is_old_or_new(rt: HostRuntime) -> Result<(), Fail> {
    assert_eq!(rt; shown_after_cut(&rt, rt.alloc(), 1)?, Block([0; 512]));
    for n in 2..5 {
        assert_eq!(rt; shown_after_cut(&rt, rt.alloc(), n)?, Block([0xaa; 512]));
    }
    Ok(())
}

#[test]
fn no_image_is_refused(rt: HostRuntime) -> Result<(), Fail> {
    let pages = BlockList::from_vec(vec![in rt.alloc(); Block([0; 512]); 9]?);
    let mut array = MemArray::over(pages, ArrayHits::new(rt.alloc()));
    assert!(rt; matches!(Intent::start(&mut array), Err(StartEnd::BadImage)));
    Ok(())
}
