ghost use Rattle.std.specs.Prelude.{◌≡◌, false, IfOk, length};
ghost use Rattle.storage_model.specs.Faults.{IsValidArrayHits};
ghost use Rattle.array_edge.specs.Script.{HasMet, HasRun};

use array_edge::{Array, ArrayEnd, FileArray, MemArray, RunArray, RunStart, ScriptArray};
use std::alloc::Global;
use std::fs;
use std::fs::File;
use std::marker::Brand;
use std::os::unix::fs::FileExt;
use std::process::Abort;
use std::test::Fail;
use storage_model::{ArrayHit, ArrayHits, Block, BlockList, NoMemory};

// Three pages of zeros.
fn three(alloc: Global) -> Result<MemArray, NoMemory>
    ensures { IfOk result (λ array. length array.pages ≡ 3) }
{
    let pages = BlockList::from_vec(vec![in alloc; Block([0; 512]); 3]?);
    Ok(MemArray::over(pages, ArrayHits::new(alloc)))
}

// Writes each page with bytes of its own, and only then reads them all back.
fn pages_stand_apart<A: Array>(rt: &impl Abort, array: &mut A)
    ensures { (A.state array.new).count ≡ 3 }
{
    assert!(rt; array.pages() == 3);
    array.power_on();
    for page in 0..3u8 {
        let block = Block([page + 1; 512]);
        assert_eq!(rt; array.program(u32::from(page), &block), Ok(()));
    }
    assert_eq!(rt; array.settle(), Ok(()));
    for page in 0..3u8 {
        let mut block = Block([0; 512]);
        assert_eq!(rt; array.fetch(u32::from(page), &mut block), Ok(()));
        assert_eq!(rt; block, Block([page + 1; 512]));
    }
}

#[test]
fn pages_of_a_file_stand_in_their_order(rt: HostRuntime) -> Result<(), Fail> {
    let path = "flash_cases_array.img";
    let file = File::options()
        .read(true)
        .write(true)
        .create(true)
        .truncate(true)
        .open(&rt, path)?;
    file.set_len(1536)?;
    pages_stand_apart(&rt, &mut FileArray::over(file, 3));
    let file = File::open(&rt, path)?;
    let mut bytes = [0; 1536];
    file.read_exact_at(&mut bytes, 0)?;
    for page in 0..3u8 {
        let start = 512 * usize::from(page);
        assert_eq!(rt; bytes[start], page + 1);
        assert_eq!(rt; bytes[start + 511], page + 1);
    }
    fs::remove_file(&rt, path)?;
    Ok(())
}

// A program that a fault befalls, with the granules of the mask new.
fn broken(n: u32, cut: bool, mask: u8) -> ArrayHit
    ensures { result ≡ record { fetch = false; n = n; cut = cut; mask = mask } }
{
    ArrayHit {
        fetch: false,
        n,
        cut,
        mask,
    }
}

// A script of one failing program and one cut.
fn scripted(alloc: Global) -> Result<ScriptArray<MemArray>, NoMemory>
    ensures { IfOk result (λ array. length array.inner.pages ≡ 3) }
{
    let mut hits = ArrayHits::new(alloc);
    hits.push(broken(4, false, 0x55))?;
    hits.push(broken(5, true, 0x0f))?;
    Ok(ScriptArray::over(three(alloc)?, hits))
}

#[test]
fn script_breaks_its_calls(rt: HostRuntime) -> Result<(), Fail> {
    let mut array = scripted(rt.alloc())?;
    pages_stand_apart(&rt, &mut array);
    let new = Block([0xee; 512]);
    assert_eq!(rt; array.program(2, &new), Err(ArrayEnd::Failed));
    assert_eq!(rt; array.program(0, &new), Err(ArrayEnd::PowerLost));
    assert_eq!(rt; array.settle(), Err(ArrayEnd::PowerLost));
    let pages = array.back().into_pages();
    assert!(rt; pages.len() == 3);
    let third = pages.at(2);
    assert_eq!(rt; (third.0[63], third.0[64], third.0[384]), (0xee, 3, 0xee));
    let first = pages.at(0);
    assert_eq!(rt; (first.0[255], first.0[256]), (0xee, 1));
    Ok(())
}

fn run_script<A: Array, S: RunStart>(array: A, hits: ArrayHits) -> ScriptArray<A>
    requires valid { IsValidArrayHits hits }
    requires start { A.state array ≡ S.start }
    requires hits { hits ≡ S.hits }
    ensures run { HasRun S.start (A.state result.inner) S.hits result.programs result.fetches }
    ensures met { HasMet S.start (A.state result.inner) S.hits result.faults result.cuts result.programs result.fetches }
{
    let mut run: RunArray<A, S> = RunArray::over(ScriptArray::over(array, hits));
    run.power_on();
    run.back()
}

fn run_from<A: Array>(array: A, hits: ArrayHits) -> ScriptArray<A>
    requires { IsValidArrayHits hits }
    ensures run { HasRun (A.state array) (A.state result.inner) hits result.programs result.fetches }
    ensures met { HasMet (A.state array) (A.state result.inner) hits result.faults result.cuts result.programs result.fetches }
{
    run_script::<A, Brand>(array, hits)
}

#[test]
fn run_is_bounded(rt: HostRuntime) -> Result<(), Fail> {
    let array = run_from(three(rt.alloc())?, ArrayHits::new(rt.alloc()));
    assert_eq!(rt; array.back().contents().len(), 3);
    Ok(())
}
