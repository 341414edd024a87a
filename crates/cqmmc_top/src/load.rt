// A load: a long run from a number, of which the counts are told.
ghost use Rattle.std.specs.Prelude.{◌≡◌, Err, None, Some};
ghost use Rattle.storage_model.specs.Count.{Later, Rose};
ghost use Rattle.storage_model.specs.declared.ends.Halt.TheVariants.{SinkFailed};
ghost use Rattle.cqmmc_top.specs.Load.{ConcludesLoad, LoadAnswers, Tells};
ghost use Rattle.cqmmc_top.specs.Print.{run_status};
ghost use Rattle.whole_run.specs.Whole.{halt_in};

use crate::command::refuse;
use crate::opening::open;
use crate::refusal::Refusal;
use crate::run::hand_back;
use array_edge::Array;
use io_edge::Sink;
use load_count::{Counts, put_counts};
use load_run::{Loaded, run_load};
use run_laws::acceptance_takes_whole_runs;
use std::alloc::Global;
use storage_model::Halt;
use whole_run::Stop;
use world::World;

/// Learns the sectors of the image, makes the plan of the number for them, runs it and tells the counts of its lines. Answers the
/// status, the array, and the run where it ended well.
pub fn load<A: Array, K: Sink>(
    alloc: Global,
    seed: u32,
    mut array: A,
    out: &mut K,
) -> (u8, A, Option<World>)
    ensures { LoadAnswers K.took K.faults seed (A.state array) (A.state result.1) out.old result.0 result.2 out.new }
{
    acceptance_takes_whole_runs();
    match open(&mut array) {
        Err(refusal) => (refuse(refusal, out), array, None),
        Ok(intent) => match run_load(alloc, seed, intent.sectors(), &mut array) {
            Err(_) => (refuse(Refusal::NoMemory, out), array, None),
            Ok(loaded) => {
                let (status, world) = conclude(loaded, out);
                (status, array, world)
            }
        },
    }
}

// The status and the lines of a run, and the run itself where it ended well.
fn conclude<K: Sink>(loaded: Loaded, out: &mut K) -> (u8, Option<World>)
    requires whole { halt_in loaded.ended ≡ Err SinkFailed → ⊥ }
    ensures concludes { ConcludesLoad K.took K.faults loaded.ended loaded.counts out.old result.0 out.new }
    ensures well { result.0 ≡ 0 → result.1 ≡ Some loaded.world }
    ensures other { (result.0 ≡ 0 → ⊥) → result.1 ≡ None }
{
    let Loaded {
        ended,
        counts,
        world,
    } = loaded;
    let status = conclude_run(ended, &counts, out);
    (status, hand_back(world, status))
}

// The status by how a run ended, with its counts. One whose image wasn't opened is refused.
fn conclude_run<K: Sink>(ended: Result<(), Stop>, counts: &Counts, out: &mut K) -> u8
    requires whole { halt_in ended ≡ Err SinkFailed → ⊥ }
    ensures { ConcludesLoad K.took K.faults ended counts.now out.old result out.new }
{
    match ended {
        Ok(()) => tell(Ok(()), counts, out),
        Err(Stop::Before(Halt::SinkFailed)) => unreachable!(),
        Err(Stop::Before(Halt::BadImage)) => refuse(Refusal::BadImage, out),
        Err(Stop::Before(Halt::OpenFault)) => refuse(Refusal::ArrayFault, out),
        Err(Stop::Before(Halt::PowerGone)) => refuse(Refusal::NoPower, out),
        Err(Stop::Behind(halt)) => tell(Err(halt), counts, out),
    }
}

// Tells the counts, and answers the run's status, or 5 where the sink failed.
fn tell<K: Sink>(ended: Result<(), Halt>, counts: &Counts, out: &mut K) -> u8
    ensures { Tells K.took K.faults counts.now ended out.old result out.new }
{
    match put_counts(counts, out) {
        Ok(()) => status_of(ended),
        Err(_) => 5,
    }
}

fn status_of(ended: Result<(), Halt>) -> u8
    ensures { result ≡ run_status ended }
{
    match ended {
        Ok(()) => 0,
        Err(Halt::SinkFailed) => 5,
        Err(Halt::BadImage) => 6,
        Err(Halt::OpenFault) => 7,
        Err(Halt::PowerGone) => 8,
    }
}
