// One event of the engine, and what there is to tell of it.
ghost use Rattle.std.specs.Prelude.{◌≡◌};
ghost use Rattle.card_link.specs.Behind.{Fits};
ghost use Rattle.cq_engine.specs.Holds.{Holds, LieIn};
ghost use Rattle.cq_regs.specs.declared.slots.Progress.TheVariants.{Named as NamedSlot};
ghost use Rattle.cq_schedule.specs.Order.{first_at};
ghost use Rattle.world_state.specs.Engine.{EngineEvent, phase_left, phase_taken};
ghost use Rattle.world_state.specs.Path.{behind_path, is_busy};

use array_edge::Array;
use card_core::Phase;
use cq_engine::Did;
use cq_regs::Progress;
use cq_schedule::first_at;
use world_state::Path;

/// What an event of the engine did, and the phase that ended in it. `named`: the slot that waited for its start sector before it; `busy`: whether
/// a phase was under way.
#[derive(Drop)]
pub struct EngineTold {
    pub did: Did,
    pub phase: Option<Phase>,
    pub named: Option<u8>,
    pub busy: bool,
}

/// One event of the engine.
pub fn engine_event<A: Array>(path: &mut Path, array: &mut A) -> EngineTold
    requires fits { Fits (behind_path path.old (A.state array.old)) }
    requires holds { Holds path.old.engine path.old.regs }
    requires lie { LieIn path.old.memory path.old.engine.held }
    ensures event { EngineEvent path.old (A.state array.old) path.new (A.state array.new) result.did result.phase }
    ensures named { result.named ≡ first_at NamedSlot path.old.regs.ring }
    ensures busy { result.busy ≡ is_busy path.old }
{
    let named = first_at(&path.regs, Progress::Named);
    let busy = is_busy(path);
    let did = card_events::engine_event(
        &mut path.engine,
        &mut path.regs,
        &mut path.mem,
        &mut path.card,
        &mut path.script,
        array,
    );
    path.card.store().keeps_lines();
    let phase = take_phase(path);
    EngineTold {
        did,
        phase,
        named,
        busy,
    }
}

// Whether a data phase is under way.
fn is_busy(path: &Path) -> bool
    ensures { result ≡ is_busy path.now }
{
    !path.regs.is_stopped() && first_at(&path.regs, Progress::Active).is_some()
}

// The phase that the card began last, once none is under way.
fn take_phase(path: &mut Path) -> Option<Phase>
    ensures { (result ≡ phase_taken path.old.card (is_busy path.old)) × (path.new ≡ record path.old { card = phase_left path.old.card (is_busy path.old) }) }
{
    if is_busy(path) {
        None
    } else {
        path.card.take_phase()
    }
}
