// The events of engine, card and power, with their lines, and what comes of a loss of power.
ghost use Rattle.std.specs.Prelude.{◌≡◌, Err};
ghost use Rattle.storage_model.specs.Count.{Later, Rose};
ghost use Rattle.storage_model.specs.declared.ends.Halt.TheVariants.{SinkFailed};
ghost use Rattle.card_link.specs.Behind.{Fits};
ghost use Rattle.step_laws.specs.Acts.{CardActed, EngineActed, HostActed, PowerActed};
ghost use Rattle.world_state.specs.Path.{behind_path};
ghost use Rattle.world_state.specs.Ties.{AreTied};
ghost use Rattle.dark_laws.specs.Anew.{Outlasts};

use array_edge::Array;
use bus_link::Cause;
use card_store::StageEnd;
use command_laws::commands_keep_ties;
use cq_engine::Did;
use dark_laws::back_again;
use engine_step::{engine_event, engine_lines};
use host_step::host_event;
use io_edge::Sink;
use phase_laws::phases_step;
use power_step::{Pending, card_event, cut, phase_cut};
use storage_model::{Halt, Item};
use trace_print::{Lines, print};
use world_state::Path;

/// An event of the host.
pub fn act_host<A: Array, K: Sink>(path: &mut Path, array: &mut A, out: &mut K) -> Result<(), Halt>
    requires tied { AreTied path.old }
    requires fits { Fits (behind_path path.old (A.state array.old)) }
    ensures acted { HostActed K.took path.old (A.state array.old) out.old result path.new (A.state array.new) out.new }
    ensures faults { Later (K.faults out.old) (K.faults out.new) }
    ensures failed { result ≡ Err SinkFailed → Rose (K.faults out.old) (K.faults out.new) }
{
    host_event(path, array, out)
}

/// An event of the engine.
pub fn act_engine<A: Array, K: Sink>(
    path: &mut Path,
    pending: &mut Pending,
    array: &mut A,
    out: &mut K,
) -> Result<(), Halt>
    requires tied { AreTied path.old }
    requires fits { Fits (behind_path path.old (A.state array.old)) }
    ensures acted { EngineActed K.took path.old (A.state array.old) out.old result path.new (A.state array.new) out.new }
    ensures faults { Later (K.faults out.old) (K.faults out.new) }
    ensures failed { result ≡ Err SinkFailed → Rose (K.faults out.old) (K.faults out.new) }
{
    phases_step();
    commands_keep_ties();
    back_again();
    let told = engine_event(path, array);
    engine_lines(path, &told).print(out)?;
    match told.did {
        Did::Stopped(Cause::Dark) => cut(path, pending, array, out),
        _ => Ok(()),
    }
}

/// An event of the card: it stages its oldest line, if it has one.
pub fn act_card<A: Array, K: Sink>(
    path: &mut Path,
    pending: &mut Pending,
    array: &mut A,
    out: &mut K,
) -> Result<(), Halt>
    requires tied { AreTied path.old }
    requires fits { Fits (behind_path path.old (A.state array.old)) }
    ensures acted { CardActed K.took path.old (A.state array.old) out.old result path.new (A.state array.new) out.new }
    ensures faults { Later (K.faults out.old) (K.faults out.new) }
    ensures failed { result ≡ Err SinkFailed → Rose (K.faults out.old) (K.faults out.new) }
{
    match card_event(path, array) {
        Ok(()) | Err(StageEnd::Empty) => Ok(()),
        Err(StageEnd::Flash) => print(&Item::Flash { id: None }, out),
        Err(StageEnd::PowerLost) => lose_power(path, pending, array, out),
    }
}

/// Power is lost: the phase under way ends, and the cut comes.
pub fn lose_power<A: Array, K: Sink>(
    path: &mut Path,
    pending: &mut Pending,
    array: &mut A,
    out: &mut K,
) -> Result<(), Halt>
    requires outlasts { Outlasts path.old }
    requires fits { Fits (behind_path path.old (A.state array.old)) }
    ensures acted { PowerActed K.took path.old (A.state array.old) out.old result path.new (A.state array.new) out.new }
    ensures faults { Later (K.faults out.old) (K.faults out.new) }
    ensures failed { result ≡ Err SinkFailed → Rose (K.faults out.old) (K.faults out.new) }
{
    let phase = phase_cut(path);
    Lines::of(phase, None).print(out)?;
    cut(path, pending, array, out)
}
