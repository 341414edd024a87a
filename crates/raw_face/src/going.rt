// The engine's events, up to one after which it does not go on.
ghost use Rattle.std.specs.Prelude.{◌≡◌, ℕ, ◌<◌, ◌≤◌, IfSome, OnOk, true};
ghost use Rattle.cq_regs.specs.declared.slots.Progress.TheVariants.{Ready};
ghost use Rattle.cq_schedule.specs.Held.{same};
ghost use Rattle.cq_schedule.specs.Order.{first_at};
ghost use Rattle.cq_engine.specs.Ends.{EventEnds};
ghost use Rattle.cq_engine.specs.Outcome.{stop_of};
ghost use Rattle.card_link.specs.Behind.{link_state};
ghost use Rattle.intent_store.specs.Intent.{ShowsImage};
ghost use Rattle.raw_machine.specs.Machine.{Stands, behind_of, moment};
ghost use Rattle.raw_face.specs.Operation.{Does};
ghost use Rattle.raw_face.specs.Output.{HasCauses, IsSinkCause};
ghost use Rattle.raw_face.specs.Reply.{output_of};
ghost use Rattle.raw_face.specs.Running.{output_after};
ghost use Rattle.raw_text.specs.declared.op.RawOp.TheVariants.{Go};
ghost use Rattle.cq_engine.specs.declared.did.Did.TheVariants.{Sent as SentCommand, Stopped as StoppedFor};

use crate::Raw;
use crate::print::print_reply;
use crate::reply::Reply;
use array_edge::Array;
use bus_link::Cause;
use cmd_words::Command;
use cq_engine::Did;
use cq_regs::{Progress, Regs};
use io_edge::Sink;
use raw_lines::RawLine;
use storage_model::{End, Halt};

/// Lets the engine work until nothing is due, a poll names no task that was sent, or it stops. Prints a line as each slot
/// ends.
pub fn go<A: Array, K: Sink>(raw: &mut Raw, array: &mut A, out: &mut K) -> Result<(), Halt>
    requires stands { Stands raw.old (A.state array.old) }
    ensures does { Does K.took Go (moment raw.old (A.state array.old)) out.old result (moment raw.new (A.state array.new)) out.new }
    ensures stands { OnOk result (Stands raw.new (A.state array.new)) }
    ensures image { ShowsImage (A.state array.new) }
    ensures sink { IsSinkCause (K.faults out.old) (K.faults out.new) result }
{
    loop {
        let did = raw.event(array);
        print_reply(&reply_of(&did), out)?;
        if !raw.goes_on(&did) {
            return Ok(());
        }
    }
}

/// What is printed after an event.
pub fn reply_of(did: &Did) -> Reply
    ensures { output_of result ≡ output_after did.now }
{
    match *did {
        Did::Direct { slot } => Reply::of(RawLine::Done { slot }),
        Did::Finished { slot } => Reply::of(RawLine::Done { slot }),
        Did::Dropped { slot, why } => Reply::of(RawLine::Dropped { slot, cause: why }),
        Did::Stopped(cause) => reply_of_stop(cause),
        Did::Idle => Reply::none(),
        Did::Sent(_) => Reply::none(),
        Did::Moved { .. } => Reply::none(),
    }
}

// What is printed after a stop. No fault befalls the bus.
fn reply_of_stop(cause: Cause) -> Reply
    ensures { output_of result ≡ output_after (StoppedFor cause) }
{
    match cause {
        Cause::Response { word, slot } => Reply::of(RawLine::Stopped {
            slot,
            response: word,
        }),
        Cause::Dark => Reply::ending(End::Dead),
        Cause::Bus { .. } => Reply::none(),
    }
}
