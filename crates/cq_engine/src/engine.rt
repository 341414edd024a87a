ghost use Rattle.std.specs.Prelude.{◌≡◌, ◌↔◌, ◌⊎◌, [], true, false, None, Some, IfOk, IsNone, if◌then◌else◌};
ghost use Rattle.std.specs.Option.{option_or};
ghost use Rattle.host_mem.specs.Memory.{Memory};
ghost use Rattle.piece_data.specs.Laws.{HasSameSpace};
ghost use Rattle.cq_regs.specs.Effects.{at_reset};
ghost use Rattle.cq_regs.specs.Slots.{IsRing};
ghost use Rattle.cq_regs.specs.State.{Registers};
ghost use Rattle.cq_schedule.specs.Holding.{HasTasks, HoldsTasks};
ghost use Rattle.cq_schedule.specs.Meaning.{rests};
ghost use Rattle.cq_engine.specs.Ends.{Uses};
ghost use Rattle.cq_engine.specs.Event.{Acts};
ghost use Rattle.cq_engine.specs.Holds.{AreCounted, LieIn};
ghost use Rattle.cq_engine.specs.Outcome.{host_of, outcome_of, stop_of};

use crate::Did;
use crate::calls::{close, held_task, move_block, send_address, send_execute, send_poll, serve};
use bus_link::{Cause, Link};
use cq_regs::Regs;
use cq_schedule::{Due, HeldTasks, due};
use host_mem::HostMem;
use std::alloc::Global;
use std::marker::Model;
use storage_model::NoMemory;

/// The command queueing engine: the tasks that it was given and has not completed, and why it stopped last.
#[derive(Debug, Drop)]
pub struct Engine {
    held: HeldTasks,
    cause: Option<Cause>,
}

impl Model for Engine {
    ghost use Rattle.cq_engine.specs.Outcome.{Holding};

    ghost Value = { Holding };

    ghost view = { λ it. record { held = it.held; cause = it.cause } };
}

impl Engine {
    ghost use Rattle.cq_engine.specs.Event.{Event};
    ghost use Rattle.cq_engine.specs.Holds.{Holds};
    ghost use Rattle.cq_engine.specs.Outcome.{holds_nothing};
    ghost use Rattle.cq_engine.specs.Standings.{MovesBy, OneOpen, completed_by, set_up_of};

    /// An engine that holds no task. It takes all its memory here.
    ///
    /// # Errors
    ///
    /// `NoMemory` where the allocator has none.
    pub fn start(alloc: Global) -> Result<Engine, NoMemory>
        ensures nothing { IfOk result (λ engine. engine ≡ holds_nothing) }
        ensures holds { IfOk result (λ engine. Holds engine at_reset) }
        // with any registers of which none is rung, and that say no stop
        ensures fresh { IfOk result (λ engine. (regs : Registers) → regs.stopped ≡ false → regs.ring ≡ [] → Holds engine regs) }
        ensures lie { IfOk result (λ engine. (memory : Memory) → LieIn memory engine.held) }
        ensures counts { IfOk result (λ engine. AreCounted engine.held) }
    {
        let held = HeldTasks::start(alloc)?;
        Ok(Engine { held, cause: None })
    }

    /// Forgets all tasks, and why the engine stopped.
    pub fn reset(&mut self)
        ensures nothing { self.new ≡ holds_nothing }
        ensures holds { Holds self.new at_reset }
        ensures fresh { (regs : Registers) → regs.stopped ≡ false → regs.ring ≡ [] → Holds self.new regs }
        ensures lie { (memory : Memory) → LieIn memory self.new.held }
        ensures counts { AreCounted self.new.held }
    {
        self.held.reset();
        self.cause = None;
    }

    /// Why the engine stopped. None where it hasn't, or where all tasks were cleared since.
    pub fn cause(&self, regs: &Regs) -> Option<Cause>
        requires { Holds self.now regs.now }
        ensures value { result ≡ (if regs.now.stopped then self.now.cause else None) }
        ensures none { IsNone result ↔ (regs.now.stopped ≡ false) }
    {
        if regs.is_stopped() { self.cause } else { None }
    }

    /// One event (host interface annex of JESD84-B51): the first of these that is due makes one call of the link at most.
    ///
    /// - The engine is disabled, halted or stopped: nothing.
    /// - A data phase is under way: its next block moves, or the phase is ended.
    /// - A task was named: CMD45 gives its start sector.
    /// - A slot is rung, and no queue barrier holds it: its descriptor and its chain are read. A direct command is sent, or
    ///   CMD44 names the task. A slot that asks for no good task is dropped.
    /// - A task is ready: CMD46 or CMD47 executes it.
    /// - A task is sent: CMD13 asks which tasks are ready.
    /// - Else the timer of the interrupt coalescing ticks.
    ///
    /// A word with a bit of the response error mask stops the engine, but for that of a poll and of a direct command without
    /// a response or that asks for the queue status; so do a fault of the bus and a loss of power. Before that it forgets the
    /// tasks of slots that are not as far as it left them.
    pub fn event<L: Link>(&mut self, regs: &mut Regs, mem: &mut HostMem, link: &mut L) -> Did
        requires fits { L.fits link.old }
        requires holds { Holds self.old regs.old }
        requires lie { LieIn mem.old self.old.held }
        ensures event { Event L.made link.old link.new self.old self.new regs.old regs.new mem.old mem.new result }
        ensures uses { Uses L.keeps L.fits L.state link.old link.new (stop_of result) }
        ensures holds { Holds self.new regs.new }
        ensures lie { LieIn mem.new self.new.held }
        ensures space { HasSameSpace mem.old mem.new }
        // nothing is done just where the engine rests or no slot is rung
        ensures idle { (result ≡ Did.Idle) ↔ ((rests regs.old ≡ true) ⊎ (regs.old.ring ≡ [])) }
        ensures ring { IsRing regs.new.ring }
        // what becomes of the slots and of the completed tasks, and that what a driver set up stays
        ensures slots { MovesBy result regs.old regs.new }
        ensures done { regs.new.completed ≡ completed_by result regs.old.completed }
        ensures set_up { set_up_of regs.new ≡ set_up_of regs.old }
        // no more blocks are counted of a task than it has, and one slot at most is open
        ensures counts { AreCounted self.old.held → AreCounted self.new.held }
        ensures one { OneOpen regs.old.ring → OneOpen regs.new.ring }
    {
        regs.keeps_ring();
        self.held.forget(regs);
        let did = act(&mut self.held, regs, mem, link);
        self.held.note(regs);
        note_stop(&mut self.cause, &did);
        regs.keeps_ring();
        did
    }
}

// Notes why the engine stopped, if it did.
fn note_stop(cause: &mut Option<Cause>, did: &Did)
    ensures { cause.new ≡ option_or (stop_of did.now) cause.old }
{
    if let Did::Stopped(why) = did {
        *cause = Some(*why);
    }
}

// Does what is due.
fn act<L: Link>(held: &mut HeldTasks, regs: &mut Regs, mem: &mut HostMem, link: &mut L) -> Did
    requires fits { L.fits link.old }
    requires holds { HoldsTasks held.old regs.old }
    requires lie { LieIn mem.old held.old }
    ensures acts { Acts L.made link.old link.new (host_of held.old regs.old) mem.old mem.new (outcome_of result held.new regs.new) }
    ensures uses { Uses L.keeps L.fits L.state link.old link.new (stop_of result) }
    ensures space { HasSameSpace mem.old mem.new }
{
    match due(held, regs, mem) {
        Due::Rest => Did::Idle,
        Due::Tick => {
            regs.tick();
            Did::Idle
        }
        Due::Serve { slot } => serve(held, regs, mem, link, slot),
        Due::Address { slot } => send_address(regs, link, slot, &held_task(held, slot).task.desc),
        Due::Execute { slot } => {
            let desc = held_task(held, slot).task.desc;
            send_execute(held, regs, link, slot, &desc)
        }
        Due::Poll => send_poll(regs, link),
        Due::Block { slot, block } => move_block(held, regs, mem, link, slot, block),
        Due::Close { slot } => {
            let desc = held_task(held, slot).task.desc;
            close(held, regs, link, slot, &desc)
        }
    }
}
