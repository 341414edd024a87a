ghost use Rattle.std.specs.Prelude.{◌≤◌};
ghost use Rattle.array_edge.specs.Memory.{array_of};
ghost use Rattle.card_store.specs.Store.{IsOpen};
ghost use Rattle.std.proofs.Props.{props};

use crate::images::image;
use array_edge::MemArray;
use card_core::{BlockEnd, Card, Dark, Phase};
use card_store::StageEnd;
use cmd_words::{Command, Task};
use std::alloc::Global;
use std::process::Abort;
use std::test::Fail;
use storage_model::{ArrayHit, Block};

const ALL: u32 = 0xffff_ffff;

const POLL: Command = Command::Status {
    queue: true,
    rca: 1,
};

const STATUS: Command = Command::Status {
    queue: false,
    rca: 1,
};

const FLUSH: Command = Command::Switch { arg: 0x0320_0101 };

const BARRIER: Command = Command::Switch { arg: 0x0320_0201 };

const CACHE_OFF: Command = Command::Switch { arg: 0x0321_0001 };

const READ: Command = Command::Execute {
    read: true,
    task: 0,
};

const WRITE: Command = Command::Execute {
    read: false,
    task: 0,
};

const DISCARD: Command = Command::Manage {
    whole: true,
    task: 0,
};

fn write_of(task: u8, blocks: u16) -> Task {
    Task {
        task,
        read: false,
        blocks,
        forced: false,
        reliable: false,
        high: false,
    }
}

fn read_of(task: u8, blocks: u16) -> Task {
    Task {
        read: true,
        ..write_of(task, blocks)
    }
}

// A call of the array that fails, or is cut.
fn hit(fetch: bool, n: u32, cut: bool) -> ArrayHit {
    ArrayHit {
        fetch,
        n,
        cut,
        mask: 0,
    }
}

/// A card that was switched on over its image.
#[derive(Drop)]
struct Bench {
    card: Card,
    array: MemArray,
    ghost open: { IsOpen card.store (array_of array) } by { Prim.hlevel props },
}

/// What is asked of the card, and what it answers.
#[derive(Clone, Copy)]
enum Step {
    /// A command and its word.
    Sends(Command, u32),
    /// A poll, at which these tasks may become ready, and its word.
    Polls(u32, u32),
    /// A block of this byte comes.
    Gives(u8),
    /// A block of this byte goes, or none.
    Takes(Result<u8, BlockEnd>),
    /// So many blocks of the data phase have moved.
    Moved(u16),
    /// The data phase ends.
    Ends(Result<u32, Dark>),
    /// The phase that is told next.
    Phase(Option<Phase>),
}

impl Bench {
    fn start(alloc: Global, depth: u8, through: bool, hits: &[ArrayHit]) -> Result<Bench, Fail>
        requires { (1 ≤ depth) × (depth ≤ 31) }
    {
        let mut array = image(alloc, hits)?;
        let mut card = Card::start(alloc, depth, 64, through)?;
        card.boot(&mut array)?;
        Ok(Bench { card, array })
    }

    fn answer(&mut self, command: &Command, ready: u32) -> Result<u32, Dark> {
        self.card.exchange(command, ready, &mut self.array)
    }

    fn give(&mut self, byte: u8) -> Result<(), BlockEnd> {
        self.card.block_in(&Block([byte; 512]), &mut self.array)
    }

    fn take(&mut self) -> Result<Block, BlockEnd> {
        let mut block = Block([7; 512]);
        self.card.block_out(&mut block, &mut self.array)?;
        Ok(block)
    }

    fn end(&mut self) -> Result<u32, Dark> {
        self.card.finish(&mut self.array)
    }

    fn idle(&mut self) -> Result<(), StageEnd> {
        self.card.idle(&mut self.array)
    }

    fn flush(&mut self) -> bool {
        self.card.flush(&mut self.array).is_ok()
    }

    // The first of the 8 sectors.
    fn first(&mut self, rt: &impl Abort) -> Option<Block> {
        assert!(rt; self.card.store().sectors() == 8);
        let mut block = Block([7; 512]);
        self.card.read(0, &mut block, &mut self.array).ok()?;
        Some(block)
    }

    // Whether the card answers so.
    fn does(&mut self, step: Step) -> bool {
        match step {
            Step::Sends(command, word) => self.answer(&command, ALL) == Ok(word),
            Step::Polls(ready, word) => self.answer(&POLL, ready) == Ok(word),
            Step::Gives(byte) => self.give(byte) == Ok(()),
            Step::Takes(wanted) => self.take() == wanted.map(|byte| Block([byte; 512])),
            Step::Moved(blocks) => self.card.moved() == blocks,
            Step::Ends(wanted) => self.end() == wanted,
            Step::Phase(wanted) => self.card.take_phase() == wanted,
        }
    }

    fn run(&mut self, rt: &impl Abort, steps: &[Step]) {
        for (k, step) in steps.iter().enumerate() {
            assert!(rt; self.does(*step), "at step {k}");
        }
    }
}

fn phase(task: u8, count: u16, kept: bool) -> Step {
    Step::Phase(Some(Phase { task, count, kept }))
}

#[test]
fn answers_by_the_table(rt: HostRuntime) -> Result<(), Fail> {
    let mut bench = Bench::start(rt.alloc(), 31, false, &[])?;
    let wrong = Command::Execute {
        read: true,
        task: 3,
    };
    let right = Command::Execute {
        read: false,
        task: 3,
    };
    let queued = [
        Step::Sends(Command::Params(write_of(3, 1)), 0x0000_0900),
        Step::Sends(Command::Address(7), 0x0000_0900),
        Step::Sends(Command::Address(7), 0x0040_0900),
        Step::Polls(0, 0),
        Step::Polls(ALL, 0x0000_0008),
        Step::Sends(wrong, 0x0040_0900),
    ];
    bench.run(&rt, &queued);
    assert_eq!(rt; bench.card.blocks_of(&right), 1);
    let served = [
        Step::Sends(right, 0x0000_0900),
        Step::Moved(0),
        Step::Gives(0xab),
        Step::Moved(1),
        Step::Ends(Ok(0x0000_0900)),
        phase(3, 1, false),
        Step::Phase(None),
        Step::Sends(Command::Params(read_of(2, 2)), 0x0000_0900),
        Step::Sends(Command::Address(7), 0x8000_0900),
        Step::Sends(DISCARD, 0x0000_0900),
        Step::Sends(Command::Switch { arg: 0x0363_0101 }, 0x0000_0980),
        Step::Sends(STATUS, 0x0000_0900),
    ];
    bench.run(&rt, &served);
    Ok(())
}

#[test]
fn direct_commands_are_phases(rt: HostRuntime) -> Result<(), Fail> {
    let mut bench = Bench::start(rt.alloc(), 16, false, &[])?;
    let steps = [
        Step::Phase(None),
        Step::Sends(BARRIER, 0x0000_0900),
        phase(31, 1, false),
        Step::Sends(STATUS, 0x0000_0900),
        phase(31, 1, false),
        Step::Sends(FLUSH, 0x0000_0900),
        phase(31, 1, true),
        Step::Sends(CACHE_OFF, 0x0000_0900),
        Step::Phase(None),
    ];
    bench.run(&rt, &steps);
    Ok(())
}

// Task 0 is queued for this sector and begins its data phase.
fn begun(task: Task, start: u32) -> [Step; 4] {
    [
        Step::Sends(Command::Params(task), 0x0000_0900),
        Step::Sends(Command::Address(start), 0x0000_0900),
        Step::Polls(ALL, 0x0000_0001),
        Step::Sends(if task.read { READ } else { WRITE }, 0x0000_0900),
    ]
}

#[test]
fn failed_programs_are_told(rt: HostRuntime) -> Result<(), Fail> {
    let hits = [
        hit(false, 1, false),
        hit(false, 2, false),
        hit(false, 5, true),
    ];
    let mut bench = Bench::start(rt.alloc(), 16, false, &hits)?;
    bench.run(&rt, &begun(write_of(0, 1), 0));
    let failed = [
        Step::Gives(1),
        Step::Ends(Ok(0x0000_0900)),
        Step::Sends(FLUSH, 0x0008_0900),
        phase(31, 0, false),
        Step::Sends(CACHE_OFF, 0x0008_0900),
        Step::Sends(CACHE_OFF, 0x0000_0900),
    ];
    bench.run(&rt, &failed);
    bench.run(&rt, &begun(write_of(0, 1), 1));
    let kept = [
        Step::Gives(2),
        Step::Ends(Ok(0x0000_0900)),
        phase(0, 1, true),
    ];
    bench.run(&rt, &kept);
    bench.run(&rt, &begun(write_of(0, 1), 2));
    bench.run(&rt, &[Step::Gives(3), Step::Ends(Err(Dark))]);
    Ok(())
}

#[test]
fn failed_fetches_are_told(rt: HostRuntime) -> Result<(), Fail> {
    let mut bench = Bench::start(rt.alloc(), 16, true, &[hit(true, 3, false)])?;
    bench.run(&rt, &begun(read_of(0, 1), 3));
    let steps = [
        Step::Takes(Err(BlockEnd::Status(0x0020_0900))),
        Step::Takes(Ok(0)),
        Step::Gives(7),
        Step::Ends(Ok(0x0000_0900)),
        Step::Takes(Ok(0)),
    ];
    bench.run(&rt, &steps);
    assert_eq!(rt; bench.idle(), Err(StageEnd::Empty));
    assert!(rt; bench.flush());
    assert_eq!(rt; bench.first(&rt), Some(Block([0; 512])));
    Ok(())
}
