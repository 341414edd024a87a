//! The one call of the link in each kind of event.
ghost use Rattle.std.specs.Prelude.{◌≡◌, ◌<◌, ◌*◌, true, false, IsSome, OnOk};
ghost use Rattle.std.specs.Option.{IsSomeAnd};
ghost use Rattle.cmd_words.specs.declared.command.Command.TheVariants.{Address};
ghost use Rattle.cq_regs.specs.declared.slots.Progress.TheVariants.{Named, Ready, Rung};
ghost use Rattle.cq_regs.specs.Slots.{progress_of};
ghost use Rattle.cq_schedule.specs.Held.{held_at, Places};
ghost use Rattle.cq_schedule.specs.Meaning.{list_of};
ghost use Rattle.piece_data.specs.Data.{block_of, parts};
ghost use Rattle.piece_data.specs.Laws.{AreApart, ChangesBlock, HasSameSpace, KeepsOthers};
ghost use Rattle.cq_engine.specs.After.{after_address, after_block, after_close, after_direct, after_execute, after_params, after_poll};
ghost use Rattle.cq_engine.specs.Ends.{Uses};
ghost use Rattle.cq_engine.specs.Event.{Closes, Exchanges, Gives, IsServed, MovesBlock, Takes, read_into};
ghost use Rattle.cq_engine.specs.Holds.{IsNextBlock, LiesIn};
ghost use Rattle.cq_engine.specs.Outcome.{host_of, outcome_of, stop_of};
ghost use Rattle.cq_engine.specs.Words.{direct_of, execute_of, params_of, poll_of};

use crate::Did;
use crate::effects::{
    after_address, after_block, after_close, after_direct, after_execute, after_params, after_poll,
    drop_slot,
};
use crate::words::{direct_of, execute_of, params_of, poll_of};
use bus_link::{Link, LinkEnd};
use cmd_words::Command;
use cq_desc::{DirectDesc, TaskDesc};
use cq_regs::{Register, Regs};
use cq_schedule::{HeldTask, HeldTasks};
use cq_task::{DataTask, SlotTask, TaskList, read_slot};
use host_mem::HostMem;
use piece_data::{read_block, write_block};
use storage_model::Block;

/// Reads a rung slot, and sends its direct command, or CMD44 of its task; or drops it.
pub(crate) fn serve<L: Link>(
    held: &mut HeldTasks,
    regs: &mut Regs,
    mem: &HostMem,
    link: &mut L,
    slot: u8,
) -> Did
    requires fits { L.fits link.old }
    requires below { slot < 32 }
    requires rung { progress_of regs.old.ring slot ≡ Rung }
    ensures serves { IsServed L.made link.old link.new (host_of held.old regs.old) mem.now slot (outcome_of result held.new regs.new) }
    ensures uses { Uses L.keeps L.fits L.state link.old link.new (stop_of result) }
{
    match read_slot(mem, list_of(regs), slot) {
        Ok(SlotTask::Direct(desc)) => send_direct(regs, link, slot, &desc),
        Ok(SlotTask::Data(task)) => send_params(held, regs, link, slot, task),
        Err(why) => drop_slot(regs, slot, why),
    }
}

fn send_direct<L: Link>(regs: &mut Regs, link: &mut L, slot: u8, desc: &DirectDesc) -> Did
    requires fits { L.fits link.old }
    requires below { slot < 32 }
    ensures sends { (held : Places) → Exchanges L.made link.old link.new (direct_of desc.now) (outcome_of result held regs.new) (after_direct (host_of held regs.old) slot desc.now) }
    ensures uses { Uses L.keeps L.fits L.state link.old link.new (stop_of result) }
{
    let answer = link.exchange(&direct_of(desc));
    after_direct(regs, slot, desc, answer)
}

fn send_params<L: Link>(
    held: &mut HeldTasks,
    regs: &mut Regs,
    link: &mut L,
    slot: u8,
    task: DataTask,
) -> Did
    requires fits { L.fits link.old }
    requires below { slot < 32 }
    requires rung { progress_of regs.old.ring slot ≡ Rung }
    ensures sends { Exchanges L.made link.old link.new (params_of slot task.desc) (outcome_of result held.new regs.new) (after_params (host_of held.old regs.old) slot task) }
    ensures uses { Uses L.keeps L.fits L.state link.old link.new (stop_of result) }
{
    let answer = link.exchange(&params_of(slot, &task.desc));
    after_params(held, regs, slot, task, answer)
}

/// Sends CMD45 of the task of a slot.
pub(crate) fn send_address<L: Link>(regs: &mut Regs, link: &mut L, slot: u8, desc: &TaskDesc) -> Did
    requires fits { L.fits link.old }
    requires below { slot < 32 }
    requires named { progress_of regs.old.ring slot ≡ Named }
    ensures sends { (held : Places) → Exchanges L.made link.old link.new (Address desc.now.start) (outcome_of result held regs.new) (after_address (host_of held regs.old) slot desc.now) }
    ensures uses { Uses L.keeps L.fits L.state link.old link.new (stop_of result) }
{
    let answer = link.exchange(&Command::Address(desc.start));
    after_address(regs, slot, desc, answer)
}

/// Sends CMD46 or CMD47 of the task of a slot.
pub(crate) fn send_execute<L: Link>(
    held: &mut HeldTasks,
    regs: &mut Regs,
    link: &mut L,
    slot: u8,
    desc: &TaskDesc,
) -> Did
    requires fits { L.fits link.old }
    requires below { slot < 32 }
    requires ready { progress_of regs.old.ring slot ≡ Ready }
    ensures sends { Exchanges L.made link.old link.new (execute_of slot desc.now) (outcome_of result held.new regs.new) (after_execute (host_of held.old regs.old) slot desc.now) }
    ensures uses { Uses L.keeps L.fits L.state link.old link.new (stop_of result) }
{
    let answer = link.exchange(&execute_of(slot, desc));
    after_execute(held, regs, slot, desc, answer)
}

/// Asks for the queue status word.
pub(crate) fn send_poll<L: Link>(regs: &mut Regs, link: &mut L) -> Did
    requires fits { L.fits link.old }
    ensures sends { (held : Places) → Exchanges L.made link.old link.new (poll_of regs.old) (outcome_of result held regs.new) (after_poll (host_of held regs.old)) }
    ensures uses { Uses L.keeps L.fits L.state link.old link.new (stop_of result) }
{
    let answer = link.exchange(&poll_of(regs));
    after_poll(regs, answer)
}

/// Ends the data phase of a slot.
pub(crate) fn close<L: Link>(
    held: &mut HeldTasks,
    regs: &mut Regs,
    link: &mut L,
    slot: u8,
    desc: &TaskDesc,
) -> Did
    requires fits { L.fits link.old }
    requires below { slot < 32 }
    ensures closes { Closes L.made link.old link.new (outcome_of result held.new regs.new) (after_close (host_of held.old regs.old) slot desc.now) }
    ensures uses { Uses L.keeps L.fits L.state link.old link.new (stop_of result) }
{
    let answer = link.close();
    after_close(held, regs, slot, desc, answer)
}

/// Moves a block of the data phase of a slot.
pub(crate) fn move_block<L: Link>(
    held: &mut HeldTasks,
    regs: &mut Regs,
    mem: &mut HostMem,
    link: &mut L,
    slot: u8,
    k: u16,
) -> Did
    requires fits { L.fits link.old }
    requires below { slot < 32 }
    requires next { IsSomeAnd (held_at held.old slot) (IsNextBlock mem.old k) }
    ensures moves { IsSomeAnd (held_at held.old slot) (λ h. MovesBlock L.made link.old link.new (host_of held.old regs.old) mem.old mem.new slot k (outcome_of result held.new regs.new) h.task) }
    ensures uses { Uses L.keeps L.fits L.state link.old link.new (stop_of result) }
{
    if held_task(held, slot).task.desc.read {
        take_block(held, regs, mem, link, slot, k)
    } else {
        give_block(held, regs, mem, link, slot, k)
    }
}

fn give_block<L: Link>(
    held: &mut HeldTasks,
    regs: &mut Regs,
    mem: &HostMem,
    link: &mut L,
    slot: u8,
    k: u16,
) -> Did
    requires fits { L.fits link.old }
    requires below { slot < 32 }
    requires next { IsSomeAnd (held_at held.old slot) (IsNextBlock mem.now k) }
    ensures gives { IsSomeAnd (held_at held.old slot) (λ h. Gives L.made link.old link.new (block_of mem.now h.task.pieces k) (outcome_of result held.new regs.new) (after_block (host_of held.old regs.old) slot h.task.desc)) }
    ensures uses { Uses L.keeps L.fits L.state link.old link.new (stop_of result) }
{
    let mut block = Block([0; 512]);
    let task = &held_task(held, slot).task;
    read_block(mem, task.pieces.as_slice(), k, &mut block);
    let desc = task.desc;
    let answer = link.give(&block);
    after_block(held, regs, slot, &desc, answer)
}

fn take_block<L: Link>(
    held: &mut HeldTasks,
    regs: &mut Regs,
    mem: &mut HostMem,
    link: &mut L,
    slot: u8,
    k: u16,
) -> Did
    requires fits { L.fits link.old }
    requires below { slot < 32 }
    requires next { IsSomeAnd (held_at held.old slot) (IsNextBlock mem.old k) }
    ensures takes { IsSomeAnd (held_at held.old slot) (λ h. Takes L.made link.old link.new h.task.pieces k mem.old mem.new (outcome_of result held.new regs.new) (after_block (host_of held.old regs.old) slot h.task.desc)) }
    ensures uses { Uses L.keeps L.fits L.state link.old link.new (stop_of result) }
{
    let mut block = Block([0; 512]);
    let answer = link.take(&mut block);
    let task = &held_task(held, slot).task;
    take_into(mem, task, k, &block, answer);
    let desc = task.desc;
    after_block(held, regs, slot, &desc, answer)
}

// Puts a block that was read into the pieces of its task.
fn take_into(mem: &mut HostMem, task: &DataTask, k: u16, block: &Block, answer: Result<(), LinkEnd>)
    requires lies { LiesIn mem.old task.now }
    requires left { k < task.now.desc.blocks }
    ensures written { mem.new ≡ read_into mem.old task.now.pieces k block.now answer }
    ensures space { HasSameSpace mem.old mem.new }
    ensures others { KeepsOthers (parts task.now.pieces (512 * k) 512) mem.old mem.new }
    ensures blocks { AreApart task.now.pieces → OnOk answer (ChangesBlock task.now.pieces mem.old mem.new k block.now) }
{
    match answer {
        Ok(()) => write_block(mem, task.pieces.as_slice(), k, block),
        Err(_) => {}
    }
}

/// The task that is held of a slot.
pub(crate) fn held_task(held: &HeldTasks, slot: u8) -> &HeldTask
    requires below { slot < 32 }
    requires is_held { IsSome (held_at held.now slot) }
    ensures { held_at held.now slot ≡ Some result.now }
{
    match held.get(slot) {
        Some(task) => task,
        None => unreachable!(),
    }
}

// The task descriptor list that the registers name.
fn list_of(regs: &Regs) -> TaskList
    ensures { result ≡ list_of regs.now }
{
    TaskList::of_registers(
        regs.value(Register::ListBase),
        regs.value(Register::ListBaseUpper),
        regs.value(Register::Configuration),
    )
}
