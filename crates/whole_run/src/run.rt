// A run from its opening to its end.
ghost use Rattle.std.specs.Prelude.{◌≡◌, Err, IfErr, OnOk, false};
ghost use Rattle.storage_model.specs.Count.{Later, Rose};
ghost use Rattle.storage_model.specs.Plan.{IsValidPlan};
ghost use Rattle.storage_model.specs.declared.ends.Halt.TheVariants.{SinkFailed};
ghost use Rattle.storage_model.specs.declared.faults.Faults.{Faults};
ghost use Rattle.storage_model.specs.declared.plan.Plan.{Plan};
ghost use Rattle.end_laws.specs.Ends.{AreToCome, IsFresh};
ghost use Rattle.whole_run.specs.Course.{Ends, IsGoing, Went};
ghost use Rattle.whole_run.specs.Whole.{IsNew, Runs, halt_in};
ghost use Rattle.world_state.specs.Ties.{IsReady};
ghost use Rattle.world_steps.specs.World.{is_to_do};

use array_edge::Array;
use io_edge::Sink;
use state_laws::state_is_read;
use storage_model::Halt;
use world::{Finish, World};
use world_steps::runs_are_read;

/// Where a run stopped that didn't come to its good end.
#[derive(Clone, Copy, Debug, PartialEq, Eq)]
pub enum Stop {
    /// Before its first line was whole: the image couldn't be opened, or the sink failed within that line.
    Before(Halt),
    /// Behind it. The end's own line is printed, unless the sink failed.
    Behind(Halt),
}

/// Opens the image, takes each next event until nothing is to do, and flushes. A last flush that loses power begins again.
///
/// # Errors
///
/// `Before` where the image couldn't be opened or its line not be written, and `Behind` where the run stopped later, each with
/// its cause: `OpenFault` where the array failed, `PowerGone` where 8 openings in a row were cut, `BadImage` where the pages are
/// no image, and `SinkFailed` where the sink failed.
pub fn run_to_end<A: Array, K: Sink>(
    world: &mut World,
    array: &mut A,
    out: &mut K,
) -> Result<(), Stop>
    requires new { IsNew world.old }
    ensures runs { (plan : Plan) → (faults : Faults) → IsValidPlan plan → AreToCome faults → IsFresh plan faults world.old → Runs K.took plan faults (A.state array.old) out.old result world.new (A.state array.new) out.new }
    ensures faults { Later (K.faults out.old) (K.faults out.new) }
    ensures failed { halt_in result ≡ Err SinkFailed → Rose (K.faults out.old) (K.faults out.new) }
{
    if let Err(halt) = world.boot(array, out) {
        return Err(Stop::Before(halt));
    }
    match go_on(world, array, out) {
        Ok(()) => Ok(()),
        Err(halt) => Err(Stop::Behind(halt)),
    }
}

/// Takes each next event behind the first line until nothing is to do, and flushes.
///
/// # Errors
///
/// As `run_to_end`'s behind that line.
pub fn go_on<A: Array, K: Sink>(world: &mut World, array: &mut A, out: &mut K) -> Result<(), Halt>
    requires going { IsGoing world.old (A.state array.old) }
    ensures ends { Ends K.took world.old (A.state array.old) out.old result world.new (A.state array.new) out.new }
    ensures faults { Later (K.faults out.old) (K.faults out.new) }
    ensures failed { result ≡ Err SinkFailed → Rose (K.faults out.old) (K.faults out.new) }
{
    take_events(world, array, out)?;
    end_run(world, array, out)
}

// Each next event, until nothing is to do.
fn take_events<A: Array, K: Sink>(world: &mut World, array: &mut A, out: &mut K) -> Result<(), Halt>
    requires going { IsGoing world.old (A.state array.old) }
    ensures went { OnOk result (Went K.took world.old (A.state array.old) out.old world.new (A.state array.new) out.new) }
    ensures over { OnOk result (is_to_do world.new.path ≡ false) }
    ensures stopped { IfErr result (λ halt. Ends K.took world.old (A.state array.old) out.old (Err halt) world.new (A.state array.new) out.new) }
    ensures faults { Later (K.faults out.old) (K.faults out.new) }
    ensures failed { result ≡ Err SinkFailed → Rose (K.faults out.old) (K.faults out.new) }
{
    state_is_read();
    runs_are_read();
    while !world.over() {
        let actor = world.choose();
        world.step(actor, array, out)?;
    }
    Ok(())
}

// The last flush. Where it loses power nothing is left to stage behind the cut, so that it loses none again.
fn end_run<A: Array, K: Sink>(world: &mut World, array: &mut A, out: &mut K) -> Result<(), Halt>
    requires ready { IsReady world.old.path (A.state array.old) }
    requires none { is_to_do world.old.path ≡ false }
    ensures ends { Ends K.took world.old (A.state array.old) out.old result world.new (A.state array.new) out.new }
    ensures faults { Later (K.faults out.old) (K.faults out.new) }
    ensures failed { result ≡ Err SinkFailed → Rose (K.faults out.old) (K.faults out.new) }
{
    runs_are_read();
    match world.finish(array, out)? {
        Finish::Off => Ok(()),
        Finish::Again => match world.finish(array, out)? {
            Finish::Off => Ok(()),
            Finish::Again => unreachable!(),
        },
    }
}
