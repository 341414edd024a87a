ghost use Rattle.std.specs.Prelude.{◌≡◌, ◌<◌, ◌↔◌, ◌&&◌, false, [], IfSome, IsTrue, slice_get};
ghost use Rattle.cq_regs.specs.declared.slots.Progress.TheVariants.{Ready, Rung};
ghost use Rattle.cq_regs.specs.Slots.{progress_of};
ghost use Rattle.cq_task.specs.Meaning.{HasBarrier};
ghost use Rattle.cq_schedule.specs.declared.rules.Due.TheVariants.{Tick};
ghost use Rattle.cq_schedule.specs.Held.{same};
ghost use Rattle.cq_schedule.specs.Holding.{HoldsTasks};
ghost use Rattle.cq_schedule.specs.Order.{blocks_of, first_at, first_high, has_flag, is_high, moved_of, order_of};
ghost use Rattle.cq_schedule.specs.Meaning.{after_serving, before_serving, list_of, next_of_phase, plain_due, rests, AloneIfBars, HasItsSlot, IsDue, IsNextServed};

use crate::held::{HeldTasks, same};
use crate::rules::Due;
use cq_regs::{Progress, Register, Regs};
use cq_task::{SLOTS, TaskList, has_barrier};
use host_mem::HostMem;

/// What the engine does next (host interface annex of JESD84-B51): the first that applies of these.
///
/// - `Rest`: the engine is disabled, halted or stopped.
/// - `Block` or `Close`: a data phase is under way.
/// - `Address`: a task was named, and has no start sector yet.
/// - `Serve`: the first slot in order of ringing that is rung, and that no queue barrier holds back.
/// - `Execute`: the first ready task, those of high priority first, then in order of ringing.
/// - `Poll`: a task is sent, and not ready.
/// - `Tick`: nothing else.
///
/// A queue barrier holds its own slot while any slot that was rung before it is not complete, and all slots that were rung
/// after it. That of a rung slot is read from the memory now; that of others was read when they were served.
pub fn due(held: &HeldTasks, regs: &Regs, mem: &HostMem) -> Due
    requires { HoldsTasks held.now regs.now }
    ensures due { IsDue held.now regs.now mem.now result }
    ensures slot { HasItsSlot held.now regs.now result }
    // the timer alone is due just where the engine runs and no slot is rung
    ensures idle { (result ≡ Tick) ↔ ((rests regs.now ≡ false) × (regs.now.ring ≡ [])) }
    // where a slot with a queue barrier is rung alone, none is held back
    ensures plain { AloneIfBars held.now regs.now mem.now → result ≡ plain_due held.now regs.now }
{
    regs.keeps_ring();
    first_due(held, regs, mem)
}

fn first_due(held: &HeldTasks, regs: &Regs, mem: &HostMem) -> Due
    requires { HoldsTasks held.now regs.now }
    ensures due { IsDue held.now regs.now mem.now result }
    ensures slot { HasItsSlot held.now regs.now result }
{
    if rests(regs) {
        return Due::Rest;
    }
    if let Some(slot) = first_at(regs, Progress::Active) {
        return next_of_phase(held, slot);
    }
    if let Some(slot) = first_at(regs, Progress::Named) {
        return Due::Address { slot };
    }
    if let Some(slot) = next_served(held, regs, mem) {
        return Due::Serve { slot };
    }
    after_serving(held, regs)
}

fn rests(regs: &Regs) -> bool
    ensures { result ≡ rests regs.now }
{
    regs.value(Register::Configuration) & 1 == 0
        || regs.value(Register::Control) != 0
        || regs.is_stopped()
}

// The k-th slot in order of ringing, 0 the first.
fn slot_at(regs: &Regs, k: u8) -> Option<u8>
    requires { k < 32 }
    ensures value { result ≡ slice_get (order_of regs.now.ring) k }
    ensures below { IfSome result (λ slot. slot < 32) }
{
    regs.rung(k)
}

/// The first slot in order of ringing that has come just so far.
pub fn first_at(regs: &Regs, progress: Progress) -> Option<u8>
    ensures value { result ≡ first_at progress regs.now.ring }
    ensures at { IfSome result (λ slot. progress_of regs.now.ring slot ≡ progress) }
    ensures below { IfSome result (λ slot. slot < 32) }
{
    for k in 0..SLOTS {
        let Some(slot) = slot_at(regs, k) else {
            return None;
        };
        if same(regs.progress(slot), progress) {
            return Some(slot);
        }
    }
    None
}

// The first ready slot of high priority.
fn first_high(held: &HeldTasks, regs: &Regs) -> Option<u8>
    ensures value { result ≡ first_high held.now regs.now.ring }
    ensures at { IfSome result (λ slot. progress_of regs.now.ring slot ≡ Ready) }
    ensures below { IfSome result (λ slot. slot < 32) }
{
    for k in 0..SLOTS {
        let Some(slot) = slot_at(regs, k) else {
            return None;
        };
        if is_high_and_ready(held, regs, slot) {
            return Some(slot);
        }
    }
    None
}

fn is_high_and_ready(held: &HeldTasks, regs: &Regs, slot: u8) -> bool
    requires { slot < 32 }
    ensures { result ≡ (same (progress_of regs.now.ring slot) Ready && is_high held.now slot) }
{
    same(regs.progress(slot), Progress::Ready) && is_high(held, slot)
}

// The priority of a task that is held.
fn is_high(held: &HeldTasks, slot: u8) -> bool
    requires { slot < 32 }
    ensures { result ≡ is_high held.now slot }
{
    match held.get(slot) {
        Some(h) => h.task.desc.high,
        None => false,
    }
}

// The queue barrier of a task that is held.
fn has_flag(held: &HeldTasks, slot: u8) -> bool
    requires { slot < 32 }
    ensures { result ≡ has_flag held.now slot }
{
    match held.get(slot) {
        Some(h) => h.task.desc.barrier,
        None => false,
    }
}

fn next_of_phase(held: &HeldTasks, slot: u8) -> Due
    requires { slot < 32 }
    ensures { result ≡ next_of_phase held.now slot }
{
    match held.get(slot) {
        Some(h) if h.moved < h.task.desc.blocks => Due::Block {
            slot,
            block: h.moved,
        },
        _ => Due::Close { slot },
    }
}

// The task descriptor list that the registers name.
fn list_of(regs: &Regs) -> TaskList
    ensures { result ≡ list_of regs.now }
{
    TaskList::of_registers(
        regs.value(Register::ListBase),
        regs.value(Register::ListBaseUpper),
        regs.value(Register::Configuration),
    )
}

// The first slot that is rung and not held back. The first rung slot decides: a queue barrier that holds it back holds back
// all that were rung later.
fn next_served(held: &HeldTasks, regs: &Regs, mem: &HostMem) -> Option<u8>
    ensures next { IsNextServed held.now regs.now mem.now result }
    ensures below { IfSome result (λ slot. slot < 32) }
{
    for k in 0..SLOTS {
        let Some(slot) = slot_at(regs, k) else {
            return None;
        };
        if same(regs.progress(slot), Progress::Rung) {
            if holds_itself_back(regs, mem, k, slot) {
                return None;
            }
            return Some(slot);
        }
        if has_flag(held, slot) {
            return None;
        }
    }
    None
}

// Whether the k-th slot, a rung one, has a queue barrier that holds it back.
fn holds_itself_back(regs: &Regs, mem: &HostMem, k: u8, slot: u8) -> bool
    requires { slot < 32 }
    ensures { IsTrue result ↔ ((0 < k) × HasBarrier mem.now (list_of regs.now) slot) }
{
    if k == 0 {
        return false;
    }
    has_barrier(mem, list_of(regs), slot)
}

fn after_serving(held: &HeldTasks, regs: &Regs) -> Due
    requires held { HoldsTasks held.now regs.now }
    requires runs { regs.now.stopped ≡ false }
    ensures value { result ≡ after_serving held.now regs.now }
    ensures slot { HasItsSlot held.now regs.now result }
{
    if let Some(slot) = first_high(held, regs) {
        return Due::Execute { slot };
    }
    if let Some(slot) = first_at(regs, Progress::Ready) {
        return Due::Execute { slot };
    }
    match first_at(regs, Progress::Sent) {
        Some(_) => Due::Poll,
        None => Due::Tick,
    }
}
