ghost use Rattle.std.specs.Prelude.{IfOk};
ghost use Rattle.storage_model.specs.Plan.{IsValidPlan};
ghost use Rattle.drv_ring.specs.Layout.{HasLayout};
ghost use Rattle.drv_core.specs.State.{layout_of};

use bus_link::{Cause, Link, LinkEnd};
use cmd_words::Command;
use cq_regs::Regs;
use drv_core::{Act, Driver, Stop};
use drv_recover::Step;
use host_mem::HostMem;
use std::alloc::Global;
use std::test::Fail;
use storage_model::{Block, BlockList, BusKind, Fill, Job, JobList, Plan};

/// A card that loses the first command, and answers the rest with the status word 00000900.
#[derive(Drop)]
struct Card {
    sent: u8,
    last: (u8, u32),
}

impl Link for Card {
    ghost use Rattle.std.specs.Prelude.{true};
    ghost use Rattle.bus_link.specs.Link.{Call, LinkState};
    ghost use Rattle.storage_model.specs.Count.{Count};

    ghost made = { λ _ _ _. Unit {0} };

    ghost keeps = { λ _ _. Unit {0} };

    ghost fits = { λ _. Unit {0} };

    ghost state = { λ _. record { bus = record { value = 0; stands = true }; flash = record { value = 0; stands = true }; cuts = record { value = 0; stands = true }; powered = true } };

    ghost kept = { λ _. tt };

    ghost kept_on = { λ _ _ _ _ _. tt };

    fn exchange(&mut self, command: &Command) -> Result<u32, LinkEnd> {
        self.last = command.encode();
        self.sent = self.sent.saturating_add(1);
        if self.sent == 1 {
            Err(LinkEnd::Bus(BusKind::Lost))
        } else {
            Ok(0x900)
        }
    }

    fn give(&mut self, _block: &Block) -> Result<(), LinkEnd> {
        Ok(())
    }

    fn take(&mut self, block: &mut Block) -> Result<(), LinkEnd> {
        block.0 = [0; 512];
        Ok(())
    }

    fn close(&mut self) -> Result<u32, LinkEnd> {
        Ok(0x900)
    }
}

/// A plan of two tags, for two writes and a flush.
fn plan_of(alloc: Global) -> Result<Plan, Fail>
    ensures { IfOk result IsValidPlan }
{
    let write = Job::Write {
        sector: 0,
        blocks: 1,
        fill: Fill::Same(0xaa),
        forced: false,
        reliable: false,
        high: false,
    };
    let mut jobs = JobList::new(alloc);
    jobs.push(write)?;
    jobs.push(write)?;
    jobs.push(Job::Flush)?;
    Ok(Plan {
        depth: 2,
        lines: 64,
        through: false,
        wide: false,
        coalesce: 0,
        jobs,
        blocks: BlockList::new(alloc),
    })
}

/// A driver with its registers, its memory and a card.
#[derive(Drop)]
struct Run {
    driver: Driver,
    regs: Regs,
    mem: HostMem,
    card: Card,
    ghost placed: { HasLayout mem (layout_of driver.requests.plan) },
}

impl Run {
    fn start(alloc: Global) -> Result<Run, Fail> {
        let driver = Driver::start(alloc, plan_of(alloc)?)?;
        let layout = driver.layout();
        let mem = HostMem::start(alloc, layout.base, layout.size())?;
        let mut regs = Regs::new();
        driver.set_up(&mut regs);
        Ok(Run {
            driver,
            regs,
            mem,
            card: Card {
                sent: 0,
                last: (0, 0),
            },
        })
    }

    fn step(&mut self, cause: Option<Cause>) -> Act {
        self.driver
            .event(&mut self.regs, &mut self.mem, cause, &mut self.card)
    }
}

#[test]
fn requests_are_issued_collected_and_issued_again(rt: HostRuntime) -> Result<(), Fail> {
    let mut run = Run::start(rt.alloc())?;
    assert!(rt; run.regs.read(0x08) == Ok(0x1001));
    let issued = [
        Act::Issued { id: 1, tag: 0 },
        Act::Issued { id: 2, tag: 1 },
        Act::Nothing,
    ];
    for act in issued {
        assert!(rt; run.step(None) == act);
    }
    assert!(rt; run.mem.get(0x2000_0000) == Ok(0x2f));
    run.regs.complete(0, true);
    assert!(rt; run.step(None) == Act::Collected { mask: 1 });
    run.regs.stopped(0x812c_0000);
    let lost = Cause::Bus {
        kind: BusKind::Lost,
        slot: Some(1),
    };
    let retried = Act::Failed {
        id: None,
        why: Stop::Retry,
    };
    assert!(rt; run.step(Some(lost)) == retried);
    let steps = [
        Step::Moved,
        Step::Again(BusKind::Lost),
        Step::Discard,
        Step::Moved,
        Step::Moved,
        Step::Over,
    ];
    for step in steps {
        assert!(rt; run.step(None) == Act::Step(step));
    }
    assert!(rt; run.card.last == (48, 1));
    assert!(rt; run.regs.read(0x10) == Ok(0));
    assert!(rt; run.step(None) == Act::Issued { id: 2, tag: 0 });
    Ok(())
}

#[test]
fn a_request_past_the_end_is_refused(rt: HostRuntime) -> Result<(), Fail> {
    let mut run = Run::start(rt.alloc())?;
    assert!(rt; run.step(None) == Act::Issued { id: 1, tag: 0 });
    run.regs.stopped(0x812d_0000);
    let past = Cause::Response {
        word: 0x8000_0900,
        slot: 0,
    };
    let refused = Act::Failed {
        id: Some(1),
        why: Stop::Range,
    };
    assert!(rt; run.step(Some(past)) == refused);
    assert!(rt; run.driver.holder(0) == None);
    run.driver.forget();
    assert!(rt; run.driver.next() == Ok(2));
    assert!(rt; run.driver.has_work(&run.regs));
    Ok(())
}
