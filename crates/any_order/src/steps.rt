// A run whose first events are of any actors.
ghost use Rattle.std.specs.Prelude.{◌≡◌, OnOk};
ghost use Rattle.storage_model.specs.Faults.{AreValid};
ghost use Rattle.storage_model.specs.Plan.{IsValidPlan};
ghost use Rattle.whole_run.specs.Whole.{IsNew};
ghost use Rattle.world_state.specs.Ties.{IsReady};

use array_edge::{Array, ScriptArray};
use fault_text::read_faults;
use io_edge::Sink;
use request_text::read_requests;
use std::alloc::Global;
use storage_model::{ArrayHits, Faults, Halt, Letter, Plan};
use world::{Finish, World};

/// The most events of a run.
const MOST_STEPS: usize = 100_000;

/// Whether a run came to a good end: of the letters of the first text, the requests of the second and the faults of the third.
pub fn serve<A: Array + Drop, K: Sink>(
    alloc: Global,
    texts: [&[u8]; 3],
    array: A,
    out: &mut K,
) -> bool {
    let (Ok(order), Ok(plan), Ok(faults)) = (
        read_faults(alloc, texts[0]),
        read_requests(alloc, texts[1]),
        read_faults(alloc, texts[2]),
    ) else {
        return false;
    };
    let Faults {
        ready,
        bus,
        array: hits,
        cuts,
        turns,
    } = faults;
    let faults = Faults {
        ready,
        bus,
        array: ArrayHits::new(alloc),
        cuts,
        turns,
    };
    let mut array = ScriptArray::over(array, hits);
    run(alloc, plan, faults, order.turns.as_slice(), &mut array, out)
}

// The same over an array with the faults of the text.
fn run<A: Array, K: Sink>(
    alloc: Global,
    plan: Plan,
    faults: Faults,
    order: &[Letter],
    array: &mut A,
    out: &mut K,
) -> bool
    requires plan { IsValidPlan plan }
    requires faults { AreValid faults }
{
    match World::start(alloc, plan, faults) {
        Ok(mut world) => matches!(take(&mut world, order, array, out), Ok(Finish::Off)),
        Err(_) => false,
    }
}

// From its first line to its end. `Again` comes where it took too many events, or its last flush lost power twice.
fn take<A: Array, K: Sink>(
    world: &mut World,
    order: &[Letter],
    array: &mut A,
    out: &mut K,
) -> Result<Finish, Halt>
    requires new { IsNew world.old }
{
    world.boot(array, out)?;
    take_steps(world, order, array, out)?;
    if !world.over() {
        return Ok(Finish::Again);
    }
    match world.finish(array, out)? {
        Finish::Off => Ok(Finish::Off),
        Finish::Again => world.finish(array, out),
    }
}

// An event of each of these actors, and behind them each event that comes next, until nothing is to do.
fn take_steps<A: Array, K: Sink>(
    world: &mut World,
    order: &[Letter],
    array: &mut A,
    out: &mut K,
) -> Result<(), Halt>
    requires ready { IsReady world.old.path (A.state array.old) }
    ensures ready { OnOk result (IsReady world.new.path (A.state array.new)) }
{
    for taken in 0..MOST_STEPS {
        if world.over() {
            return Ok(());
        }
        let actor = match order.get(taken) {
            Some(actor) => *actor,
            None => world.choose(),
        };
        world.step(actor, array, out)?;
    }
    Ok(())
}
