//! What the answer of each call of the link does to the tasks that are held and to the registers.
ghost use Rattle.std.specs.Prelude.{◌≡◌, ◌<◌, ◌&&◌, not, true, false, Some, IfSome, MatchResult};
ghost use Rattle.std.specs.Option.{IsSomeAnd};
ghost use Rattle.std.specs.Result.{result_err};
ghost use Rattle.cq_regs.specs.declared.slots.Progress.TheVariants.{Named, Ready, Rung};
ghost use Rattle.bus_link.specs.declared.link.Cause.TheVariants.{Response};
ghost use Rattle.bus_link.specs.Link.{is_poll};
ghost use Rattle.cmd_words.specs.Command.{index_of};
ghost use Rattle.cq_regs.specs.Effects.{completed};
ghost use Rattle.cq_regs.specs.Slots.{progress_of};
ghost use Rattle.cq_engine.specs.declared.did.Did.TheVariants.{Direct, Finished, Stopped};
ghost use Rattle.cq_schedule.specs.Held.{held_at, HasBlockLeft, Places};
ghost use Rattle.cq_engine.specs.After.{after_address, after_block, after_close, after_direct, after_execute, after_params, after_poll, direct_ended, direct_heard, dropped, executed, finished, phase_ended};
ghost use Rattle.cq_engine.specs.Ends.{Explains};
ghost use Rattle.cq_engine.specs.Outcome.{heard, host_of, judged, outcome_of, stop_of, stopped_with, word_in};
ghost use Rattle.cq_engine.specs.Words.{direct_of, is_masked};

use crate::Did;
use crate::words::{
    command_error, data_error, direct_of, execute_of, has_error, is_masked, is_poll, params_of,
    poll_of,
};
use bus_link::{Cause, LinkEnd};
use cmd_words::Command;
use cq_desc::{DirectDesc, TaskDesc};
use cq_regs::Regs;
use cq_schedule::HeldTasks;
use cq_task::{DataTask, DropCause};

/// CMD44 was answered: the task is held, and its slot is named.
pub(crate) fn after_params(
    held: &mut HeldTasks,
    regs: &mut Regs,
    slot: u8,
    task: DataTask,
    answer: Result<u32, LinkEnd>,
) -> Did
    requires below { slot < 32 }
    requires rung { progress_of regs.old.ring slot ≡ Rung }
    ensures after { outcome_of result held.new regs.new ≡ after_params (host_of held.old regs.old) slot task answer }
    ensures explains { Explains true answer (stop_of result) }
{
    let command = params_of(slot, &task.desc);
    match hear(regs, &command, slot, answer) {
        Ok(_) => {
            regs.advance(slot);
            held.hold(slot, task);
            Did::Sent(command)
        }
        Err(cause) => Did::Stopped(cause),
    }
}

/// CMD45 was answered: the slot is sent.
pub(crate) fn after_address(
    regs: &mut Regs,
    slot: u8,
    desc: &TaskDesc,
    answer: Result<u32, LinkEnd>,
) -> Did
    requires below { slot < 32 }
    requires named { progress_of regs.old.ring slot ≡ Named }
    ensures after { (held : Places) → outcome_of result held regs.new ≡ after_address (host_of held regs.old) slot desc.now answer }
    ensures explains { Explains true answer (stop_of result) }
{
    let command = Command::Address(desc.start);
    match hear(regs, &command, slot, answer) {
        Ok(_) => {
            regs.advance(slot);
            Did::Sent(command)
        }
        Err(cause) => Did::Stopped(cause),
    }
}

/// CMD46 or CMD47 was answered: the data phase begins, or is over at once.
pub(crate) fn after_execute(
    held: &mut HeldTasks,
    regs: &mut Regs,
    slot: u8,
    desc: &TaskDesc,
    answer: Result<u32, LinkEnd>,
) -> Did
    requires below { slot < 32 }
    requires ready { progress_of regs.old.ring slot ≡ Ready }
    ensures after { outcome_of result held.new regs.new ≡ after_execute (host_of held.old regs.old) slot desc.now answer }
    ensures explains { Explains true answer (stop_of result) }
{
    match hear(regs, &execute_of(slot, desc), slot, answer) {
        Ok(word) => execute(held, regs, slot, desc, word),
        Err(cause) => Did::Stopped(cause),
    }
}

fn execute(held: &mut HeldTasks, regs: &mut Regs, slot: u8, desc: &TaskDesc, word: u32) -> Did
    requires below { slot < 32 }
    requires ready { progress_of regs.old.ring slot ≡ Ready }
    ensures after { outcome_of result held.new regs.new ≡ executed slot desc.now (host_of held.old regs.old) word }
    ensures goes_on { stop_of result ≡ None }
{
    regs.advance(slot);
    if has_error(word) {
        finish(held, regs, slot, desc)
    } else {
        Did::Sent(execute_of(slot, desc))
    }
}

/// A poll was answered: its word is the queue status word.
pub(crate) fn after_poll(regs: &mut Regs, answer: Result<u32, LinkEnd>) -> Did
    ensures after { (held : Places) → outcome_of result held regs.new ≡ after_poll (host_of held regs.old) answer }
    ensures explains { Explains false answer (stop_of result) }
{
    let command = poll_of(regs);
    let index = command.encode().0;
    match word_in(answer, None) {
        Ok(word) => {
            regs.response(index, word);
            regs.polled(word);
            Did::Sent(command)
        }
        Err(cause) => stop(regs, command_error(index, 0), cause),
    }
}

/// A direct command was answered: its task completes, or the engine stops.
pub(crate) fn after_direct(
    regs: &mut Regs,
    slot: u8,
    desc: &DirectDesc,
    answer: Result<u32, LinkEnd>,
) -> Did
    requires below { slot < 32 }
    ensures after { (held : Places) → outcome_of result held regs.new ≡ after_direct (host_of held regs.old) slot desc.now answer }
    ensures explains { Explains (not (is_poll (direct_of desc.now))) answer (stop_of result) }
{
    match word_in(answer, Some(slot)) {
        Ok(word) => end_direct(regs, slot, desc, word),
        Err(cause) => {
            let index = direct_of(desc).encode().0;
            stop(regs, command_error(index, slot), cause)
        }
    }
}

fn end_direct(regs: &mut Regs, slot: u8, desc: &DirectDesc, word: u32) -> Did
    requires below { slot < 32 }
    ensures after { (held : Places) → outcome_of result held regs.new ≡ direct_ended (host_of held regs.old) slot desc.now (Ok word) }
    ensures stops { IfSome (stop_of result) (λ cause. (cause ≡ Response word slot) × (is_poll (direct_of desc.now) ≡ false)) }
{
    if desc.resp == 0 {
        complete_direct(regs, slot, desc.int)
    } else {
        hear_direct(regs, slot, desc, word)
    }
}

// The response of a direct command.
fn hear_direct(regs: &mut Regs, slot: u8, desc: &DirectDesc, word: u32) -> Did
    requires below { slot < 32 }
    ensures after { (held : Places) → outcome_of result held regs.new ≡ direct_heard slot desc.now (host_of held regs.old) word }
    ensures stops { IfSome (stop_of result) (λ cause. (cause ≡ Response word slot) × (is_poll (direct_of desc.now) ≡ false)) }
{
    let command = direct_of(desc);
    let index = command.encode().0;
    regs.response(index, word);
    regs.direct(word);
    if stops_for(regs, &command, word) {
        stop(
            regs,
            command_error(index, slot),
            Cause::Response { word, slot },
        )
    } else {
        complete_direct(regs, slot, desc.int)
    }
}

// Whether the engine stops for the response of a direct command.
fn stops_for(regs: &Regs, command: &Command, word: u32) -> bool
    ensures { result ≡ (is_masked regs.now word && not (is_poll command.now)) }
{
    is_masked(regs, word) && !is_poll(command)
}

fn complete_direct(regs: &mut Regs, slot: u8, int: bool) -> Did
    requires below { slot < 32 }
    ensures completed { regs.new ≡ completed regs.old slot int }
    ensures did { result ≡ Direct slot }
{
    regs.complete(slot, int);
    Did::Direct { slot }
}

/// A slot asks for no good task.
pub(crate) fn drop_slot(regs: &mut Regs, slot: u8, why: DropCause) -> Did
    requires below { slot < 32 }
    ensures after { (held : Places) → outcome_of result held regs.new ≡ dropped (host_of held regs.old) slot why }
    ensures goes_on { stop_of result ≡ None }
{
    regs.dropped(slot);
    Did::Dropped { slot, why }
}

/// A block moved, or the data phase was broken off.
pub(crate) fn after_block(
    held: &mut HeldTasks,
    regs: &mut Regs,
    slot: u8,
    desc: &TaskDesc,
    answer: Result<(), LinkEnd>,
) -> Did
    requires below { slot < 32 }
    requires left { IsSomeAnd (held_at held.old slot) HasBlockLeft }
    ensures after { outcome_of result held.new regs.new ≡ after_block (host_of held.old regs.old) slot desc.now answer }
    ensures explains { MatchResult answer (λ _. stop_of result ≡ None) (λ end. Explains true (Err end) (stop_of result)) }
{
    match answer {
        Ok(()) => {
            held.count_block(slot);
            Did::Moved { slot }
        }
        Err(end) => after_close(held, regs, slot, desc, Err(end)),
    }
}

/// The data phase is over.
pub(crate) fn after_close(
    held: &mut HeldTasks,
    regs: &mut Regs,
    slot: u8,
    desc: &TaskDesc,
    answer: Result<u32, LinkEnd>,
) -> Did
    requires below { slot < 32 }
    ensures after { outcome_of result held.new regs.new ≡ after_close (host_of held.old regs.old) slot desc.now answer }
    ensures explains { Explains true answer (stop_of result) }
{
    match judge(regs, slot, answer) {
        Ok(_) => finish(held, regs, slot, desc),
        Err(cause) => {
            let index = execute_of(slot, desc).encode().0;
            stop(regs, data_error(index, slot), cause)
        }
    }
}

// The task of a slot is complete, and no longer held.
fn finish(held: &mut HeldTasks, regs: &mut Regs, slot: u8, desc: &TaskDesc) -> Did
    requires below { slot < 32 }
    ensures after { outcome_of result held.new regs.new ≡ record { did = Finished slot; host = finished (host_of held.old regs.old) slot desc.now } }
    ensures goes_on { stop_of result ≡ None }
{
    held.release(slot);
    regs.complete(slot, desc.int);
    Did::Finished { slot }
}

// Takes the answer of a command of a slot. The engine stops where there is no word, or where it has a bit of the response
// error mask.
fn hear(
    regs: &mut Regs,
    command: &Command,
    slot: u8,
    answer: Result<u32, LinkEnd>,
) -> Result<u32, Cause>
    ensures judged { result ≡ judged regs.old slot (word_in answer (Some slot)) }
    ensures heard { regs.new ≡ heard regs.old (index_of command.now) slot (word_in answer (Some slot)) }
    ensures ring { regs.new.ring ≡ regs.old.ring }
    ensures explains { Explains true answer (result_err result) }
{
    let index = command.encode().0;
    match word_in(answer, Some(slot)) {
        Ok(word) => {
            regs.response(index, word);
            if is_masked(regs, word) {
                regs.stopped(command_error(index, slot));
                Err(Cause::Response { word, slot })
            } else {
                Ok(word)
            }
        }
        Err(cause) => {
            regs.stopped(command_error(index, slot));
            Err(cause)
        }
    }
}

// The word of an answer, unless the engine is to stop for it.
fn judge(regs: &Regs, slot: u8, answer: Result<u32, LinkEnd>) -> Result<u32, Cause>
    ensures judged { result ≡ judged regs.now slot (word_in answer (Some slot)) }
    ensures explains { Explains true answer (result_err result) }
{
    match word_in(answer, Some(slot)) {
        Ok(word) if is_masked(regs, word) => Err(Cause::Response { word, slot }),
        other => other,
    }
}

// The word that a call was answered with, also one that broke a data phase off.
fn word_in(answer: Result<u32, LinkEnd>, slot: Option<u8>) -> Result<u32, Cause>
    ensures { result ≡ word_in answer slot }
{
    match answer {
        Ok(word) | Err(LinkEnd::Status(word)) => Ok(word),
        Err(LinkEnd::Bus(kind)) => Err(Cause::Bus { kind, slot }),
        Err(LinkEnd::Dark) => Err(Cause::Dark),
    }
}

// Stops the engine.
fn stop(regs: &mut Regs, information: u32, cause: Cause) -> Did
    ensures stopped { regs.new ≡ stopped_with regs.old information }
    ensures did { result ≡ Stopped cause }
{
    regs.stopped(information);
    Did::Stopped(cause)
}
