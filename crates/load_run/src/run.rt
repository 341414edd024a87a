// A whole run of a plan made from a number, into a sink that counts.
ghost use Rattle.std.specs.Prelude.{◌≡◌, ◌≤◌, ℕ, IfOk, IsOk, OnErr};
ghost use Rattle.storage_model.specs.Plan.{IsValidPlan};
ghost use Rattle.end_laws.specs.Ends.{IsFresh};
ghost use Rattle.load_generator.specs.Load.{load_plan as plan_of};
ghost use Rattle.load_run.specs.Loads.{Loads, none};
ghost use Rattle.whole_run.specs.Whole.{IsNew};

use array_edge::Array;
use load_count::{CountingSink, Counts};
use load_generator::load_plan;
use std::alloc::Global;
use storage_model::{ArrayHits, Faults, HitList, LetterList, NoMemory, WordList};
use whole_run::{Stop, run_to_end};
use world::World;

/// What a load came to: how its run ended, the counts of its lines, and the run itself.
#[derive(Drop)]
pub struct Loaded {
    pub ended: Result<(), Stop>,
    pub counts: Counts,
    pub world: World,
}

/// Makes the plan of a number for an image of so many sectors, from 1 to 65,536, and runs it to its end. The only error is want of
/// memory, before the array is touched.
pub fn run_load<A: Array>(
    alloc: Global,
    seed: u32,
    sectors: u32,
    array: &mut A,
) -> Result<Loaded, NoMemory>
    requires least { 1 ≤ sectors }
    requires most { sectors ≤ 65536 }
    ensures loads { IfOk result (λ loaded. Loads seed sectors (A.state array.old) loaded (A.state array.new)) }
    ensures refused { OnErr result (array.new ≡ array.old) }
{
    let world = start(alloc, seed, sectors)?;
    Ok(take(world, array))
}

// Runs it.
fn take<A: Array>(mut world: World, array: &mut A) -> Loaded
    requires new { IsNew world }
    ensures { (n sectors : ℕ) → IsValidPlan (plan_of n sectors) → IsFresh (plan_of n sectors) none world → Loads n sectors (A.state array.old) result (A.state array.new) }
{
    let mut out = CountingSink::new();
    let ended = run_to_end(&mut world, array, &mut out);
    Loaded {
        ended,
        counts: out.counts(),
        world,
    }
}

// The run before its first line.
fn start(alloc: Global, seed: u32, sectors: u32) -> Result<World, NoMemory>
    requires least { 1 ≤ sectors }
    requires most { sectors ≤ 65536 }
    ensures valid { IsOk result → IsValidPlan (plan_of seed sectors) }
    ensures new { IfOk result IsNew }
    ensures fresh { IfOk result (IsFresh (plan_of seed sectors) none) }
{
    let plan = load_plan(alloc, seed, sectors)?;
    World::start(alloc, plan, no_faults(alloc))
}

fn no_faults(alloc: Global) -> Faults
    ensures { result ≡ none }
{
    Faults {
        ready: WordList::new(alloc),
        bus: HitList::new(alloc),
        array: ArrayHits::new(alloc),
        cuts: WordList::new(alloc),
        turns: LetterList::new(alloc),
    }
}
