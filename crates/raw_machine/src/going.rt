// Whether the engine goes on after an event.
ghost use Rattle.std.specs.Prelude.{◌≡◌, ◌<◌, IfSome};
ghost use Rattle.cq_regs.specs.declared.slots.Progress.TheVariants.{Ready};
ghost use Rattle.cq_schedule.specs.Order.{first_at};
ghost use Rattle.cq_engine.specs.declared.did.Did.TheVariants.{Sent as SentCommand};
ghost use Rattle.raw_machine.specs.Running.{IsBelow, goes_on};

use cmd_words::Command;
use cq_engine::Did;
use cq_regs::{Progress, Regs};
use cq_schedule::first_at;

/// Whether the engine goes on after an event.
pub fn goes_on(did: &Did, regs: &Regs) -> bool
    ensures value { result ≡ goes_on did.now regs.now }
    ensures below { IsBelow did.now regs.now }
{
    match did {
        Did::Idle => false,
        Did::Stopped(_) => false,
        Did::Sent(command) => goes_on_after(command, regs),
        Did::Direct { .. } => true,
        Did::Moved { .. } => true,
        Did::Finished { .. } => true,
        Did::Dropped { .. } => true,
    }
}

// Whether it goes on after a command: after a poll only where that named a task.
fn goes_on_after(command: &Command, regs: &Regs) -> bool
    ensures value { result ≡ goes_on (SentCommand command.now) regs.now }
    ensures below { IsBelow (SentCommand command.now) regs.now }
{
    match command {
        Command::Status { queue: true, .. } => first_at(regs, Progress::Ready).is_some(),
        _ => true,
    }
}
