// What a loss of power may leave, and a load.
ghost use Rattle.std.specs.Prelude.{◌≡◌, All, List, length};
ghost use Rattle.storage_model.specs.Contents.{IsWithin};
ghost use Rattle.storage_model.specs.declared.block.Block.{Block};

use load_generator::load_plan;
use std::test::Fail;
use storage_model::{Block, Fill, Job, Mark, NoMemory, Put, keep, left_allows, mix_allows, now};

// A put on sector 0, and one on sector 1 behind a barrier.
fn marks(first: Block, second: Block) -> [Mark; 3]
    ensures { (base : List Block) → length base ≡ 2 → All (IsWithin base) result }
{
    [
        Mark::Put(Put {
            sector: 0,
            value: first,
            reliable: false,
        }),
        Mark::Bar,
        Mark::Put(Put {
            sector: 1,
            value: second,
            reliable: false,
        }),
    ]
}

#[test]
fn a_barrier_orders_two_puts(rt: HostRuntime) -> Result<(), NoMemory> {
    let zeros = Block([0; 512]);
    let (first, second) = (Block([0xaa; 512]), Block([0xbb; 512]));
    let base = [zeros, zeros];
    let written = [first, second];
    let pend = marks(first, second);
    let contents = now(rt.alloc(), &base, &pend)?;
    assert!(&rt; contents.as_slice() == written.as_slice());
    for (after, allowed) in [
        ([zeros, zeros], true),
        ([first, zeros], true),
        (written, true),
        ([zeros, second], false),
    ] {
        assert_eq!(&rt; left_allows(&base, &pend, &after), allowed);
    }
    assert!(&rt; mix_allows(&base, &pend, 1, 1, &second));
    assert!(&rt; !mix_allows(&base, &pend, 1, 0, &zeros));
    let kept = keep(rt.alloc(), &base, &pend, 1, 1)?;
    assert!(&rt; kept.base.as_slice() == written.as_slice());
    assert!(&rt; kept.pend.is_empty());
    Ok(())
}

#[test]
fn the_load_of_a_number_is_made(rt: HostRuntime) -> Result<(), Fail> {
    let plan = load_plan(rt.alloc(), 0, 8)?;
    assert_eq!(rt; plan.jobs.len(), 4096);
    let wanted = [
        Job::Barrier,
        Job::Read {
            sector: 4,
            blocks: 3,
            high: false,
        },
        Job::Barrier,
        Job::Write {
            sector: 1,
            blocks: 7,
            fill: Fill::Ramp(4),
            forced: false,
            reliable: false,
            high: false,
        },
    ];
    for (k, job) in wanted.iter().enumerate() {
        assert_eq!(rt; plan.jobs.as_slice().get(k), Some(job));
    }
    Ok(())
}
