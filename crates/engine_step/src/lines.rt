// The lines of an event of the engine, by what it did.
ghost use Rattle.std.specs.Int.{bit_at};
ghost use Rattle.std.specs.Prelude.{◌≡◌, ◌<◌, ◌==◌};
ghost use Rattle.bus_link.specs.Link.{tells_flash};
ghost use Rattle.cq_regs.specs.declared.slots.Progress.TheVariants.{Named as NamedSlot, Ready as ReadySlot};
ghost use Rattle.cq_regs.specs.Slots.{progress_of};
ghost use Rattle.cq_schedule.specs.Held.{same};
ghost use Rattle.cq_schedule.specs.Order.{first_at};
ghost use Rattle.world_state.specs.Engine.{broken_phase, command_lines, engine_lines, id_at, id_named, phase_line_of, ready_mask, stop_lines};
ghost use Rattle.world_state.specs.Path.{PathState, is_busy};
ghost use Rattle.trace_print.specs.Prints.{line_in};

use crate::event::EngineTold;
use bus_link::Cause;
use card_core::{DIRECT_TASK, Phase};
use cmd_words::Command;
use cq_engine::Did;
use cq_regs::{Progress, Regs};
use storage_model::{BusKind, Item};
use trace_print::Lines;
use world_state::Path;

/// The bits of a status word that tell of a fault of the flash.
const ERROR: u8 = 19;

const DEVICE_ECC_FAILED: u8 = 21;

/// The lines of an event of the engine that `told` tells of. Where power was lost in it, the lines of a cut follow.
pub fn engine_lines(path: &Path, told: &EngineTold) -> Lines
    ensures { (p : PathState) → path.now.driver ≡ p.driver → told.now.named ≡ first_at NamedSlot p.regs.ring → told.now.busy ≡ is_busy p → result ≡ engine_lines p path.now told.now.did told.now.phase }
{
    match told.did {
        Did::Idle | Did::Moved { .. } | Did::Dropped { .. } => Lines::of(None, None),
        Did::Sent(command) => Lines::of(command_line(path, &command, told.named), None),
        Did::Direct { .. } | Did::Finished { .. } => Lines::of(phase_line(path, &told.phase), None),
        Did::Stopped(cause) => stop_lines(path, told, &cause),
    }
}

// The line of a command that was answered.
fn command_line(path: &Path, command: &Command, named: Option<u8>) -> Option<Item>
    ensures { (p : PathState) → path.now.driver ≡ p.driver → named ≡ first_at NamedSlot p.regs.ring → line_in result ≡ command_lines p path.now command.now }
{
    let n = path.script.sent();
    match command {
        Command::Params(task) => Some(Item::Params {
            n,
            id: id_at(path, task.task),
        }),
        Command::Address(_) => Some(Item::Address {
            n,
            id: id_named(path, named),
        }),
        Command::Status { queue: true, .. } => Some(Item::Poll {
            n,
            mask: ready_mask(&path.regs),
        }),
        _ => None,
    }
}

/// The line of a phase that ended, where one did.
pub fn phase_line(path: &Path, phase: &Option<Phase>) -> Option<Item>
    ensures { (p : PathState) → path.now.driver ≡ p.driver → line_in result ≡ phase_line_of p path.now phase.now }
{
    match phase {
        None => None,
        Some(phase) => Some(Item::Phase {
            n: path.script.sent(),
            id: id_at(path, phase.task),
            count: phase.count,
            kept: phase.kept,
        }),
    }
}

// The lines of a stop.
fn stop_lines(path: &Path, told: &EngineTold, cause: &Cause) -> Lines
    ensures { (p : PathState) → path.now.driver ≡ p.driver → told.now.busy ≡ is_busy p → result ≡ stop_lines p path.now told.now.phase cause.now }
{
    match cause {
        Cause::Bus { kind, slot: None } => Lines::of(Some(bus_line(path, *kind, None)), None),
        Cause::Bus {
            kind,
            slot: Some(tag),
        } => Lines::of(
            broken_phase(path, told, *tag),
            Some(bus_line(path, *kind, Some(id_at(path, *tag)))),
        ),
        Cause::Response { word, slot } => response_lines(path, told, *word, *slot),
        Cause::Dark => Lines::of(phase_line(path, &told.phase), None),
    }
}

// The line of a fault of the bus.
fn bus_line(path: &Path, kind: BusKind, id: Option<u32>) -> Item
    ensures { result ≡ Item.Bus path.now.script.sent kind id }
{
    Item::Bus {
        n: path.script.sent(),
        kind,
        id,
    }
}

// The line of a phase that a fault of the bus broke off.
fn broken_phase(path: &Path, told: &EngineTold, tag: u8) -> Option<Item>
    ensures { (p : PathState) → path.now.driver ≡ p.driver → told.now.busy ≡ is_busy p → line_in result ≡ broken_phase p path.now tag told.now.phase }
{
    if told.busy || tag == DIRECT_TASK {
        phase_line(path, &told.phase)
    } else {
        None
    }
}

// The lines of a response with an error: a phase that the flash broke off, or an address past the end.
fn response_lines(path: &Path, told: &EngineTold, word: u32, slot: u8) -> Lines
    ensures { (p : PathState) → path.now.driver ≡ p.driver → result ≡ stop_lines p path.now told.now.phase (Cause.Response word slot) }
{
    let id = id_at(path, slot);
    if tells_flash(word) {
        Lines::of(
            phase_line(path, &told.phase),
            Some(Item::Flash { id: Some(id) }),
        )
    } else {
        let n = path.script.sent();
        Lines::of(Some(Item::Address { n, id }), None)
    }
}

// Whether a status word tells of a fault of the flash.
fn tells_flash(word: u32) -> bool
    ensures { result ≡ tells_flash word }
{
    is_set(word, ERROR) || is_set(word, DEVICE_ECC_FAILED)
}

// Whether a bit of a word is 1.
fn is_set(word: u32, bit: u8) -> bool
    requires { bit < 32 }
    ensures { result ≡ (bit_at word bit == 1) }
{
    word >> bit & 1 == 1
}

// The request of a tag, or 0.
fn id_at(path: &Path, tag: u8) -> u32
    ensures { (p : PathState) → path.now.driver ≡ p.driver → result ≡ id_at p tag }
{
    path.driver.holder(tag).unwrap_or(0)
}

// The request of the slot that waited for its start sector, or 0.
fn id_named(path: &Path, named: Option<u8>) -> u32
    ensures { (p : PathState) → path.now.driver ≡ p.driver → result ≡ id_named p named }
{
    match named {
        None => 0,
        Some(tag) => id_at(path, tag),
    }
}

// The slots that are ready, as a queue status word.
#[tactic(auto, using(crate::proofs::ReadyMasks::mask_fits), unfolding(world_state::specs::Engine::ready_mask))]
fn ready_mask(regs: &Regs) -> u32
    ensures { result ≡ ready_mask regs.now.ring }
{
    let mut mask = 0;
    for slot in 0..32u8 {
        if is_ready(regs, slot) {
            mask += 1u32 << slot;
        }
    }
    mask
}

fn is_ready(regs: &Regs, slot: u8) -> bool
    requires { slot < 32 }
    ensures { result ≡ same (progress_of regs.now.ring slot) ReadySlot }
{
    matches!(regs.progress(slot), Progress::Ready)
}
