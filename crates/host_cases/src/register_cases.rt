use cq_regs::{NoRegister, Progress, Regs};
use std::process::Abort;

/// A register is written, or reads as this.
#[derive(Clone, Copy)]
enum Step {
    Write(u8, u32),
    Read(u8, u32),
}

fn does(regs: &mut Regs, step: Step) -> bool {
    match step {
        Step::Write(offset, value) => regs.write(offset, value) == Ok(()),
        Step::Read(offset, value) => regs.read(offset) == Ok(value),
    }
}

fn run(rt: &impl Abort, regs: &mut Regs, steps: &[Step]) {
    for (k, step) in steps.iter().enumerate() {
        assert!(rt; does(regs, *step), "at step {k}");
    }
}

// Slot 0 is dropped, and slot 1 completes.
fn drop_and_complete(rt: &impl Abort, regs: &mut Regs) {
    assert!(rt; regs.rung(0) == Some(0));
    regs.dropped(0);
    assert!(rt; regs.rung(0) == Some(1));
    regs.complete(1, true);
}

#[test]
fn a_task_completes(rt: HostRuntime) {
    let mut regs = Regs::new();
    let rung = [
        Step::Write(0x14, 0xf),
        Step::Write(0x08, 1),
        Step::Write(0x28, 3),
    ];
    run(&rt, &mut regs, &rung);
    drop_and_complete(&rt, &mut regs);
    let told = [
        Step::Read(0x2c, 2),
        Step::Write(0x2c, 0),
        Step::Read(0x2c, 2),
        Step::Write(0x2c, 2),
        Step::Read(0x2c, 0),
        Step::Write(0x10, 0),
        Step::Read(0x10, 2),
        Step::Write(0x10, 2),
        Step::Read(0x10, 0),
        Step::Read(0x28, 0),
    ];
    run(&rt, &mut regs, &told);
    assert!(rt; regs.read(0x3c) == Err(NoRegister));
}

// Slot 1 comes from one step of its task to the next.
fn advance(rt: &impl Abort, regs: &mut Regs, from: Progress, to: Progress) {
    assert!(rt; matches!(from, Progress::Rung | Progress::Named | Progress::Ready));
    assert!(rt; regs.progress(1) == from);
    regs.advance(1);
    assert!(rt; regs.progress(1) == to);
}

fn stop(rt: &impl Abort, regs: &mut Regs) {
    regs.direct(0x900);
    regs.response(13, 0x0020_0900);
    regs.stopped(0x812e_0000);
    assert!(rt; regs.is_stopped());
    regs.tick();
    assert!(rt; !regs.signal());
}

#[test]
fn a_task_runs_and_the_engine_stops(rt: HostRuntime) {
    let mut regs = Regs::new();
    run(
        &rt,
        &mut regs,
        &[Step::Write(0x08, 1), Step::Write(0x28, 2)],
    );
    advance(&rt, &mut regs, Progress::Rung, Progress::Named);
    advance(&rt, &mut regs, Progress::Named, Progress::Sent);
    regs.polled(2);
    advance(&rt, &mut regs, Progress::Ready, Progress::Active);
    assert!(rt; regs.read(0x30) == Ok(0));
    stop(&rt, &mut regs);
    let told = [
        Step::Read(0x48, 0x900),
        Step::Read(0x54, 0x812e_0000),
        Step::Read(0x5c, 0x0020_0900),
    ];
    run(&rt, &mut regs, &told);
}
