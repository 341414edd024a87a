// What a run needs before its first line: its texts and its memory.
ghost use Rattle.std.specs.Prelude.{◌≡◌, IfOk, IfErr};
ghost use Rattle.storage_model.specs.Count.{Later};
ghost use Rattle.storage_model.specs.Faults.{AreValid};
ghost use Rattle.storage_model.specs.Plan.{IsValidPlan};
ghost use Rattle.end_laws.specs.Ends.{IsFresh};
ghost use Rattle.cqmmc_top.specs.Answers.{IsReady, IsUnready};

use crate::refusal::Refusal;
use crate::texts::{take_faults, take_plan};
use io_edge::Source;
use std::alloc::Global;
use storage_model::{ArrayHits, Faults, Plan};
use world::World;

/// A run before its first line, and the faults that its array is to have.
#[derive(Drop)]
pub struct Ready {
    pub world: World,
    pub hits: ArrayHits,
}

/// Reads both texts, and takes the memory of a run.
pub fn prepare<S1: Source, S2: Source>(
    alloc: Global,
    first: &mut S1,
    second: &mut S2,
) -> Result<Ready, Refusal>
    ensures ready { IfOk result (IsReady (S1.left first.old) (S2.left second.old)) }
    ensures refused { IfErr result (IsUnready (S1.left first.old) (S1.faults first.old) (S1.faults first.new) (S2.left second.old) (S2.faults second.old) (S2.faults second.new)) }
    ensures first { Later (S1.faults first.old) (S1.faults first.new) }
    ensures second { Later (S2.faults second.old) (S2.faults second.new) }
{
    let plan = take_plan(alloc, first)?;
    let faults = take_faults(alloc, second)?;
    take_world(alloc, plan, faults)
}

// The memory of a run. The faults of the array go to the array.
fn take_world(alloc: Global, plan: Plan, faults: Faults) -> Result<Ready, Refusal>
    requires valid { IsValidPlan plan }
    requires faults { AreValid faults }
    ensures fresh { IfOk result (λ ready. IsFresh plan faults ready.world) }
    ensures hits { IfOk result (λ ready. ready.hits ≡ faults.array) }
    ensures memory { IfErr result (λ refusal. refusal ≡ Refusal.NoMemory) }
{
    let Faults {
        ready,
        bus,
        array: hits,
        cuts,
        turns,
    } = faults;
    let faults = Faults {
        ready,
        bus,
        array: ArrayHits::new(alloc),
        cuts,
        turns,
    };
    match World::start(alloc, plan, faults) {
        Ok(world) => Ok(Ready { world, hits }),
        Err(_) => Err(Refusal::NoMemory),
    }
}
