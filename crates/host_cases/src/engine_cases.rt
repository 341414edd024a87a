ghost use Rattle.std.specs.Prelude.{IfOk};
ghost use Rattle.cq_engine.specs.Holds.{Holds, LieIn};

use arrayvec::ArrayVec;
use bus_link::{Cause, Link, LinkEnd};
use cmd_words::Command;
use cq_desc::DescFault;
use cq_engine::{Did, DropCause, Engine};
use cq_regs::Regs;
use cq_words::put64;
use host_mem::HostMem;
use std::alloc::Global;
use std::process::Abort;
use std::test::Fail;
use storage_model::{Block, BusKind, NoMemory};

/// A card that answers with the words that it is told, and else with 00000900. It remembers what crossed. Its counts stand at
/// their ends, and tell nothing.
#[derive(Drop)]
struct Card {
    answers: [Result<u32, LinkEnd>; 8],
    answered: usize,
    block_end: Option<LinkEnd>,
    fill: u8,
    sent: ArrayVec<(u8, u32), 32>,
    given: ArrayVec<u8, 32>,
}

// A card that answers the first poll with a word.
fn polled(word: u32) -> [Result<u32, LinkEnd>; 8] {
    let ok = Ok(0x900);
    [ok, ok, Ok(word), ok, ok, ok, ok, ok]
}

fn answering(answers: [Result<u32, LinkEnd>; 8]) -> Card {
    Card {
        answers,
        answered: 0,
        block_end: None,
        fill: 0,
        sent: ArrayVec::new(),
        given: ArrayVec::new(),
    }
}

impl Card {
    fn answer(&mut self) -> Result<u32, LinkEnd> {
        let answer = match self.answers.get(self.answered) {
            Some(answer) => *answer,
            None => Ok(0x900),
        };
        self.answered = self.answered.saturating_add(1);
        answer
    }

    fn end_of_block(&mut self) -> Result<(), LinkEnd> {
        match self.block_end {
            Some(end) => Err(end),
            None => Ok(()),
        }
    }
}

impl Link for Card {
    ghost use Rattle.std.specs.Prelude.{true, false};
    ghost use Rattle.bus_link.specs.Link.{Call, LinkState};
    ghost use Rattle.storage_model.specs.Count.{Count};

    ghost made = { λ _ _ _. Unit {0} };

    ghost keeps = { λ _ _. Unit {0} };

    ghost fits = { λ _. Unit {0} };

    ghost state = { λ _. record { bus = record { value = 0; stands = true }; flash = record { value = 0; stands = true }; cuts = record { value = 0; stands = true }; powered = false } };

    ghost kept = { λ _. tt };

    ghost kept_on = { λ _ _ _ _ _. tt };

    fn exchange(&mut self, command: &Command) -> Result<u32, LinkEnd> {
        let _ = self.sent.try_push(command.encode());
        self.answer()
    }

    fn give(&mut self, block: &Block) -> Result<(), LinkEnd> {
        let _ = self.given.try_push(block.0[0]);
        self.end_of_block()
    }

    fn take(&mut self, block: &mut Block) -> Result<(), LinkEnd> {
        block.0 = [self.fill; 512];
        self.end_of_block()
    }

    fn close(&mut self) -> Result<u32, LinkEnd> {
        self.answer()
    }
}

/// An engine with its registers, a memory and a card.
#[derive(Drop)]
struct Bench {
    engine: Engine,
    regs: Regs,
    mem: HostMem,
    link: Card,
}

/// What an event did: the index of the command that it sent, or the slot that it served.
#[derive(Clone, Copy, PartialEq)]
enum Event {
    Idle,
    Sent(u8),
    Direct(u8),
    Moved(u8),
    Finished(u8),
    Dropped(u8, DropCause),
    Stopped(Cause),
}

/// What is done with the bench, and what comes of it.
#[derive(Clone, Copy)]
enum Step {
    /// Two words of 8 bytes are put at this place of the memory.
    Put(u64, u64, u64),
    /// A register is written.
    Write(u8, u32),
    /// A register reads as this.
    Read(u8, u32),
    /// Whether the engine has a cause to have stopped.
    Cause(bool),
    /// The next event does this.
    Next(Event),
}

// The registers as a driver sets them up: every interrupt, direct commands, the task descriptor list at 20010000, and 1 as the
// address of the card.
const SET_UP: [Step; 4] = [
    Step::Write(0x14, 0xf),
    Step::Write(0x08, 0x1001),
    Step::Write(0x20, 0x2001_0000),
    Step::Write(0x44, 1),
];

fn event_of(did: Did) -> Event {
    match did {
        Did::Idle => Event::Idle,
        Did::Sent(command) => Event::Sent(command.encode().0),
        Did::Direct { slot } => Event::Direct(slot),
        Did::Moved { slot } => Event::Moved(slot),
        Did::Finished { slot } => Event::Finished(slot),
        Did::Dropped { slot, why } => Event::Dropped(slot, why),
        Did::Stopped(cause) => Event::Stopped(cause),
    }
}

impl Bench {
    fn start(alloc: Global, answers: [Result<u32, LinkEnd>; 8]) -> Result<Bench, NoMemory>
        ensures holds { IfOk result (λ bench. Holds bench.engine bench.regs) }
        ensures lie { IfOk result (λ bench. LieIn bench.mem bench.engine.held) }
    {
        let mem = HostMem::start(alloc, 0x2001_0000, 0x1000)?;
        let engine = Engine::start(alloc)?;
        Ok(Bench {
            engine,
            regs: Regs::new(),
            mem,
            link: answering(answers),
        })
    }

    // Engine and registers are reset; the memory and the card stay.
    fn reset(&mut self)
        ensures holds { Holds self.new.engine self.new.regs }
        ensures lie { LieIn self.new.mem self.new.engine.held }
    {
        self.engine.reset();
        self.regs = Regs::new();
    }

    fn write(&mut self, offset: u8, value: u32) -> bool
        requires holds { Holds self.old.engine self.old.regs }
        requires lie { LieIn self.old.mem self.old.engine.held }
        ensures holds { Holds self.new.engine self.new.regs }
        ensures lie { LieIn self.new.mem self.new.engine.held }
    {
        self.regs.write(offset, value).is_ok()
    }

    fn put(&mut self, at: u64, first: u64, second: u64) -> bool
        requires holds { Holds self.old.engine self.old.regs }
        requires lie { LieIn self.old.mem self.old.engine.held }
        ensures holds { Holds self.new.engine self.new.regs }
        ensures lie { LieIn self.new.mem self.new.engine.held }
    {
        let mut bytes = [0; 16];
        put64(&mut bytes, 0, first);
        put64(&mut bytes, 8, second);
        self.mem.copy_in(at, &bytes).is_ok()
    }

    fn next(&mut self) -> Did
        requires holds { Holds self.old.engine self.old.regs }
        requires lie { LieIn self.old.mem self.old.engine.held }
        ensures holds { Holds self.new.engine self.new.regs }
        ensures lie { LieIn self.new.mem self.new.engine.held }
    {
        self.engine
            .event(&mut self.regs, &mut self.mem, &mut self.link)
    }

    fn has_cause(&self) -> bool
        requires { Holds self.now.engine self.now.regs }
    {
        self.engine.cause(&self.regs).is_some()
    }

    // Whether the bench does so.
    fn does(&mut self, step: Step) -> bool
        requires holds { Holds self.old.engine self.old.regs }
        requires lie { LieIn self.old.mem self.old.engine.held }
        ensures holds { Holds self.new.engine self.new.regs }
        ensures lie { LieIn self.new.mem self.new.engine.held }
    {
        match step {
            Step::Put(at, first, second) => self.put(at, first, second),
            Step::Write(offset, value) => self.write(offset, value),
            Step::Read(offset, value) => self.regs.read(offset) == Ok(value),
            Step::Cause(wanted) => self.has_cause() == wanted,
            Step::Next(event) => event_of(self.next()) == event,
        }
    }

    fn run(&mut self, rt: &impl Abort, steps: &[Step])
        requires holds { Holds self.old.engine self.old.regs }
        requires lie { LieIn self.old.mem self.old.engine.held }
        ensures holds { Holds self.new.engine self.new.regs }
        ensures lie { LieIn self.new.mem self.new.engine.held }
    {
        for (k, step) in steps.iter().enumerate() {
            assert!(rt; self.does(*step), "at step {k}");
        }
    }
}

/// Two blocks go to the card, and the notice comes with the last.
#[test]
fn a_write_of_two_blocks(rt: HostRuntime) -> Result<(), Fail> {
    let mut bench = Bench::start(rt.alloc(), polled(2))?;
    bench.run(&rt, &SET_UP);
    let steps = [
        Step::Put(0x2001_0010, 0x0000_1000_0002_002f, 0x2001_0200_0400_0023),
        Step::Put(0x2001_0200, 7, 0),
        Step::Put(0x2001_0400, 8, 0),
        Step::Next(Event::Idle),
        Step::Write(0x28, 2),
        Step::Next(Event::Sent(44)),
        Step::Next(Event::Sent(45)),
        Step::Next(Event::Sent(13)),
        Step::Next(Event::Sent(47)),
        Step::Read(0x30, 0),
        Step::Next(Event::Moved(1)),
        Step::Next(Event::Moved(1)),
        Step::Read(0x2c, 0),
        Step::Next(Event::Finished(1)),
        Step::Next(Event::Idle),
        Step::Read(0x2c, 2),
        Step::Read(0x28, 0),
        Step::Read(0x10, 2),
    ];
    bench.run(&rt, &steps);
    assert!(rt; bench.link.given.as_slice() == [7, 8].as_slice());
    let sent = [
        (44, 0x0001_0002),
        (45, 0x1000),
        (13, 0x0001_8000),
        (47, 0x0001_0000),
    ];
    assert!(rt; bench.link.sent.as_slice() == sent.as_slice());
    Ok(())
}

/// A slot with a queue barrier waits for the read before it, and a read over its descriptor drops it.
#[test]
fn a_read_over_a_barrier(rt: HostRuntime) -> Result<(), Fail> {
    let mut bench = Bench::start(rt.alloc(), polled(2))?;
    bench.run(&rt, &SET_UP);
    let not_valid = DropCause::Task(DescFault::NotValid);
    let steps = [
        Step::Put(0x2001_0010, 0x0000_0000_0001_102f, 0x2001_0000_0200_0023),
        Step::Put(0x2001_0020, 0x0000_0000_0001_402f, 0x2001_0000_0200_0023),
        Step::Write(0x28, 6),
        Step::Next(Event::Sent(44)),
        Step::Next(Event::Sent(45)),
        Step::Next(Event::Sent(13)),
        Step::Next(Event::Sent(46)),
        Step::Next(Event::Moved(1)),
        Step::Next(Event::Finished(1)),
        Step::Next(Event::Dropped(2, not_valid)),
        Step::Read(0x28, 0),
        Step::Read(0x2c, 2),
    ];
    bench.run(&rt, &steps);
    Ok(())
}

/// A command without a response, a flush, and a CMD13 that asks for the queue status.
#[test]
fn direct_commands(rt: HostRuntime) -> Result<(), Fail> {
    let mut answers = polled(0x8000_0900);
    answers[0] = Ok(0x980);
    answers[1] = Ok(0x901);
    let mut bench = Bench::start(rt.alloc(), answers)?;
    bench.run(&rt, &SET_UP);
    let steps = [
        Step::Put(0x2001_01f0, 0x0320_0101_0006_402f, 0),
        Step::Write(0x28, 0x8000_0000),
        Step::Next(Event::Direct(31)),
        Step::Read(0x48, 0),
        Step::Read(0x58, 0),
        Step::Put(0x2001_01f0, 0x0320_0101_0186_402f, 0),
        Step::Write(0x28, 0x8000_0000),
        Step::Next(Event::Direct(31)),
        Step::Read(0x48, 0x901),
        Step::Read(0x58, 6),
        Step::Read(0x5c, 0x901),
        Step::Put(0x2001_01f0, 0x0001_8000_010d_402f, 0),
        Step::Write(0x28, 0x8000_0000),
        Step::Next(Event::Direct(31)),
        Step::Read(0x30, 0),
        Step::Read(0x5c, 0x8000_0900),
    ];
    bench.run(&rt, &steps);
    let sent = [(6, 0x0320_0101), (6, 0x0320_0101), (13, 0x0001_8000)];
    assert!(rt; bench.link.sent.as_slice() == sent.as_slice());
    Ok(())
}

// A write of one block in slot 1, from 20010200 on, is rung.
const ONE_BLOCK: [Step; 2] = [
    Step::Put(0x2001_0010, 0x0000_1000_0001_002f, 0x2001_0200_0200_0023),
    Step::Write(0x28, 2),
];

/// A bit of the response error mask stops the engine until all tasks are cleared.
#[test]
fn a_response_that_stops(rt: HostRuntime) -> Result<(), Fail> {
    let mut answers = polled(2);
    answers[1] = Ok(0x8000_0900);
    let mut bench = Bench::start(rt.alloc(), answers)?;
    bench.run(&rt, &SET_UP);
    bench.run(&rt, &ONE_BLOCK);
    let cause = Cause::Response {
        word: 0x8000_0900,
        slot: 1,
    };
    let steps = [
        Step::Next(Event::Sent(44)),
        Step::Next(Event::Stopped(cause)),
        Step::Read(0x54, 0x812d),
        Step::Read(0x58, 45),
        Step::Read(0x5c, 0x8000_0900),
        Step::Read(0x10, 4),
        Step::Read(0x28, 2),
        Step::Next(Event::Idle),
        Step::Cause(true),
        Step::Write(0x0c, 1),
        Step::Write(0x0c, 0x101),
        Step::Cause(false),
        Step::Next(Event::Idle),
        Step::Write(0x0c, 0),
        Step::Write(0x28, 2),
        Step::Next(Event::Sent(44)),
    ];
    bench.run(&rt, &steps);
    Ok(())
}

// A fault of the bus stops the engine in slot 1.
fn stopped(kind: BusKind) -> Step {
    Step::Next(Event::Stopped(Cause::Bus {
        kind,
        slot: Some(1),
    }))
}

/// A bad block stops the engine, and so does a lost command.
#[test]
fn faults_of_the_bus(rt: HostRuntime) -> Result<(), Fail> {
    let mut answers = polled(2);
    answers[4] = Err(LinkEnd::Bus(BusKind::Lost));
    let mut bench = Bench::start(rt.alloc(), answers)?;
    bench.link.block_end = Some(LinkEnd::Bus(BusKind::Bad(1)));
    let bad = [
        Step::Next(Event::Sent(44)),
        Step::Next(Event::Sent(45)),
        Step::Next(Event::Sent(13)),
        Step::Next(Event::Sent(47)),
        stopped(BusKind::Bad(1)),
        Step::Read(0x54, 0x812f_0000),
        Step::Read(0x58, 47),
    ];
    bench.run(&rt, &SET_UP);
    bench.run(&rt, &ONE_BLOCK);
    bench.run(&rt, &bad);
    bench.reset();
    bench.run(&rt, &SET_UP);
    let lost = [
        Step::Write(0x28, 2),
        stopped(BusKind::Lost),
        Step::Read(0x54, 0x812c),
    ];
    bench.run(&rt, &lost);
    Ok(())
}
