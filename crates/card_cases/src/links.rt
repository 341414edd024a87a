ghost use Rattle.std.specs.Prelude.{◌≡◌};

use crate::images::image;
use bus_link::{Link, LinkEnd, ScriptLink};
use card_core::Card;
use card_link::CardLink;
use cmd_words::{Command, Task};
use std::alloc::Global;
use std::process::Abort;
use std::test::Fail;
use storage_model::{Block, BusKind, Hit, HitList, NoMemory, WordList};

const POLL: Command = Command::Status {
    queue: true,
    rca: 1,
};

const DISCARD: Command = Command::Manage {
    whole: true,
    task: 0,
};

const WRITE: Task = Task {
    task: 0,
    read: false,
    blocks: 1,
    forced: false,
    reliable: false,
    high: false,
};

const READ: Task = Task {
    read: true,
    ..WRITE
};

/// What is asked of the link, and how it ends.
#[derive(Clone, Copy)]
enum Step {
    Sends(Command, Result<u32, LinkEnd>),
    /// A block of this byte goes to the card.
    Gives(u8, Result<(), LinkEnd>),
    /// A block of this byte comes from the card.
    Takes(u8),
    Closes(Result<u32, LinkEnd>),
}

fn does<L: Link>(link: &mut L, step: Step) -> bool
    requires { L.fits link.old }
    ensures { L.fits link.new }
{
    match step {
        Step::Sends(command, wanted) => link.exchange(&command) == wanted,
        Step::Gives(byte, wanted) => link.give(&Block([byte; 512])) == wanted,
        Step::Takes(byte) => {
            let mut block = Block([0; 512]);
            link.take(&mut block) == Ok(()) && block == Block([byte; 512])
        }
        Step::Closes(wanted) => link.close() == wanted,
    }
}

fn run<L: Link>(rt: &impl Abort, link: &mut L, steps: &[Step])
    requires { L.fits link.old }
    ensures { L.fits link.new }
{
    for (k, step) in steps.iter().enumerate() {
        assert!(rt; does(link, *step), "at step {k}");
    }
}

// Task 0 is queued for sector 2, polled, and begins its data phase.
fn begun(task: Task) -> [Step; 4] {
    let execute = Command::Execute {
        read: task.read,
        task: task.task,
    };
    [
        Step::Sends(Command::Params(task), Ok(0x900)),
        Step::Sends(Command::Address(2), Ok(0x900)),
        Step::Sends(POLL, Ok(1)),
        Step::Sends(execute, Ok(0x900)),
    ]
}

fn hit(n: u32, kind: BusKind) -> Hit
    ensures { result ≡ record { n = n; kind = kind } }
{
    Hit { n, kind }
}

// A script of these faults, whose first poll finds the tasks 1 and 2 ready.
fn script(alloc: Global) -> Result<ScriptLink, NoMemory> {
    let mut hits = HitList::new(alloc);
    hits.push(hit(1, BusKind::Lost))?;
    hits.push(hit(3, BusKind::NoResp))?;
    hits.push(hit(9, BusKind::Bad(1)))?;
    hits.push(hit(14, BusKind::Late))?;
    let mut ready = WordList::new(alloc);
    ready.push(6)?;
    ScriptLink::start(alloc, hits, ready)
}

// A command is lost, one has no response, a block comes bad and an end comes late; then the block is written and read.
fn session<L: Link>(rt: &impl Abort, link: &mut L)
    requires { L.fits link.old }
    ensures { L.fits link.new }
{
    let lost = [
        Step::Sends(Command::Params(WRITE), Err(LinkEnd::Bus(BusKind::Lost))),
        Step::Sends(Command::Params(WRITE), Ok(0x900)),
        Step::Sends(Command::Address(2), Err(LinkEnd::Bus(BusKind::NoResp))),
        Step::Sends(POLL, Ok(0)),
        Step::Sends(DISCARD, Ok(0x900)),
    ];
    let bad = [
        Step::Gives(0xaa, Err(LinkEnd::Bus(BusKind::Bad(1)))),
        Step::Sends(DISCARD, Ok(0x900)),
    ];
    let late = [
        Step::Gives(0xaa, Ok(())),
        Step::Closes(Err(LinkEnd::Bus(BusKind::Late))),
    ];
    let read = [Step::Takes(0xaa), Step::Closes(Ok(0x900))];
    run(rt, link, &lost);
    run(rt, link, &begun(WRITE));
    run(rt, link, &bad);
    run(rt, link, &begun(WRITE));
    run(rt, link, &late);
    run(rt, link, &begun(READ));
    run(rt, link, &read);
}

#[test]
fn faults_befall_their_commands(rt: HostRuntime) -> Result<(), Fail> {
    let mut script = script(rt.alloc())?;
    let mut array = image(rt.alloc(), &[])?;
    let mut card = Card::start(rt.alloc(), 16, 64, false)?;
    card.boot(&mut array)?;
    let mut link = CardLink {
        card: &mut card,
        array: &mut array,
        link: &mut script,
    };
    session(&rt, &mut link);
    assert!(rt; script.sent() == 18);
    assert!(rt; script.recent(1) == Some((13, 0x0001_8000)));
    assert!(rt; script.recent(32) == None);
    Ok(())
}
