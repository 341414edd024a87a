// A run of what its texts mean, over an array with the faults of its fault text.
ghost use Rattle.std.specs.Prelude.{◌≡◌, ◌⊎◌, Err, List, None, Option, Some, ℕ};
ghost use Rattle.storage_model.specs.Count.{Count, Later, Rose};
ghost use Rattle.storage_model.specs.Faults.{IsValidArrayHits};
ghost use Rattle.storage_model.specs.declared.ends.Halt.TheVariants.{SinkFailed};
ghost use Rattle.array_edge.specs.Array.{ArrayState};
ghost use Rattle.array_edge.specs.Script.{HasRun, script_over};
ghost use Rattle.cqmmc_top.specs.Answers.{IsReady};
ghost use Rattle.cqmmc_top.specs.Command.{RunAnswers};
ghost use Rattle.cqmmc_top.specs.Concludes.{Concludes, GoesOn};
ghost use Rattle.rest_array.specs.Rest.{CountsOn};
ghost use Rattle.whole_run.specs.Course.{IsGoing};
ghost use Rattle.whole_run.specs.Whole.{IsNew, halt_in};

use crate::command::refuse;
use crate::prepare::Ready;
use crate::refusal::Refusal;
use answer_laws::requests_are_answered;
use array_edge::{Array, RunArray, RunStart, ScriptArray};
use io_edge::Sink;
use rest_array::{RestArray, RestStart};
use run_laws::acceptance_takes_whole_runs;
use std::marker::Brand;
use storage_model::Halt;
use whole_run::{Stop, go_on};
use world::World;

/// Serves the requests, and answers the status, the array, and the run where it ended well.
pub fn serve<A: Array, K: Sink>(ready: Ready, array: A, out: &mut K) -> (u8, A, Option<World>)
    requires new { IsNew ready.world }
    requires hits { IsValidArrayHits ready.hits }
    ensures { (requests fault_text : Option (List ℕ)) (first first' second second' : Count) → IsReady requests fault_text ready → RunAnswers K.took K.faults requests first first' fault_text second second' (A.state array) (A.state result.1) out.old result.0 result.2 out.new }
{
    serve_over::<A, K, Brand>(ready, array, out)
}

// The same, where the array is known by what it was at the start.
fn serve_over<A: Array, K: Sink, S: RunStart>(
    ready: Ready,
    array: A,
    out: &mut K,
) -> (u8, A, Option<World>)
    requires new { IsNew ready.world }
    requires valid { IsValidArrayHits ready.hits }
    requires start { A.state array ≡ S.start }
    requires hits { ready.hits ≡ S.hits }
    ensures { (requests fault_text : Option (List ℕ)) (first first' second second' : Count) → IsReady requests fault_text ready → RunAnswers K.took K.faults requests first first' fault_text second second' (A.state array) (A.state result.1) out.old result.0 result.2 out.new }
{
    acceptance_takes_whole_runs();
    requests_are_answered();
    let Ready { mut world, hits } = ready;
    let mut run: RunArray<A, S> = RunArray::over(ScriptArray::over(array, hits));
    if let Err(halt) = world.boot(&mut run, out) {
        let status = conclude(Err(Stop::Before(halt)), out);
        return (status, run.back().back(), hand_back(world, status));
    }
    let (ended, script) = serve_behind::<A, K, Brand>(&mut world, run.back(), out);
    let status = conclude(ended, out);
    (status, script.back(), hand_back(world, status))
}

// Behind the first line, where the array is also known by what it was behind the openings.
fn serve_behind<A: Array, K: Sink, S: RestStart>(
    world: &mut World,
    script: ScriptArray<A>,
    out: &mut K,
) -> (Result<(), Stop>, ScriptArray<A>)
    requires going { IsGoing world.old (script_over A.state script) }
    requires moment { A.state script.inner ≡ S.moment }
    requires hits { script.hits ≡ S.hits }
    requires run { HasRun S.start (A.state script.inner) script.hits script.programs script.fetches }
    ensures went { GoesOn K.took world.old (script_over A.state script) out.old result.0 world.new (script_over A.state result.1) out.new }
    ensures run { HasRun S.start (A.state result.1.inner) result.1.hits result.1.programs result.1.fetches }
    ensures on { CountsOn S.moment (A.state result.1.inner) }
    ensures hits { result.1.hits ≡ S.hits }
    ensures faults { Later (K.faults out.old) (K.faults out.new) }
    ensures failed { halt_in result.0 ≡ Err SinkFailed → Rose (K.faults out.old) (K.faults out.new) }
{
    let mut rest: RestArray<A, S> = RestArray::behind(script);
    match go_on(world, &mut rest, out) {
        Ok(()) => (Ok(()), rest.back()),
        Err(halt) => (Err(Stop::Behind(halt)), rest.back()),
    }
}

// The status by how a run ended. One whose image wasn't opened is refused.
fn conclude<K: Sink>(ended: Result<(), Stop>, out: &mut K) -> u8
    ensures { Concludes K.took K.faults ended out.old result out.new }
{
    match ended {
        Ok(()) => 0,
        Err(Stop::Before(Halt::SinkFailed)) => 5,
        Err(Stop::Before(Halt::BadImage)) => refuse(Refusal::BadImage, out),
        Err(Stop::Before(Halt::OpenFault)) => refuse(Refusal::ArrayFault, out),
        Err(Stop::Before(Halt::PowerGone)) => refuse(Refusal::NoPower, out),
        Err(Stop::Behind(Halt::SinkFailed)) => 5,
        Err(Stop::Behind(Halt::BadImage)) => 6,
        Err(Stop::Behind(Halt::OpenFault)) => 7,
        Err(Stop::Behind(Halt::PowerGone)) => 8,
    }
}

/// A run that ended well.
pub fn hand_back(world: World, status: u8) -> Option<World>
    ensures well { status ≡ 0 → result ≡ Some world }
    ensures other { (status ≡ 0 → ⊥) → result ≡ None }
{
    if status == 0 { Some(world) } else { None }
}
