// One event of the driver, with its lines.
ghost use Rattle.std.specs.Prelude.{◌≡◌, ◌++◌, Err, IfErr, OnErr};
ghost use Rattle.storage_model.specs.Count.{Later, Rose};
ghost use Rattle.storage_model.specs.declared.ends.Halt.TheVariants.{SinkFailed};
ghost use Rattle.card_link.specs.Behind.{Fits};
ghost use Rattle.host_step.specs.Lines.{HostPrints, answers_of, lines_behind};
ghost use Rattle.trace_print.specs.Prints.{Takes, line_in};
ghost use Rattle.world_state.specs.Host.{HostEvent, fault_lines, step_lines};
ghost use Rattle.world_state.specs.Path.{behind_path};
ghost use Rattle.world_state.specs.Ties.{AreTied};

use crate::answers::collect;
use array_edge::Array;
use drv_core::{Act, Stop, Work};
use drv_recover::Step;
use io_edge::Sink;
use storage_model::{Halt, Item, Limit, Why};
use trace_print::{Lines, print};
use world_state::Path;

/// One event of the driver. Its answers are printed before it, since it frees the tags; where the sink fails, the event takes place
/// all the same.
///
/// # Errors
///
/// `SinkFailed` where the sink failed: the lines that were taken begin those of the event.
pub fn host_event<A: Array, K: Sink>(
    path: &mut Path,
    array: &mut A,
    out: &mut K,
) -> Result<(), Halt>
    requires tied { AreTied path.old }
    requires fits { Fits (behind_path path.old (A.state array.old)) }
    ensures prints { HostPrints K.took path.old (A.state array.old) out.old result path.new (A.state array.new) out.new }
    ensures halt { IfErr result (λ halt. halt ≡ SinkFailed) }
    ensures faults { Later (K.faults out.old) (K.faults out.new) }
    ensures failed { result ≡ Err SinkFailed → Rose (K.faults out.old) (K.faults out.new) }
{
    let answered = answer_done(path, out);
    let act = driver_event(path, array);
    match answered {
        Err(halt) => Err(halt),
        Ok(()) => lines_of(act, path.script.sent()).print(out),
    }
}

// The answers of the tasks that are to be collected.
fn answer_done<K: Sink>(path: &Path, out: &mut K) -> Result<(), Halt>
    requires { AreTied path.now }
    ensures takes { Takes K.took out.old (answers_of path.now) result out.new }
    ensures halt { IfErr result (λ halt. halt ≡ SinkFailed) }
    ensures faults { Later (K.faults out.old) (K.faults out.new) }
    ensures failed { OnErr result (Rose (K.faults out.old) (K.faults out.new)) }
{
    match path.driver.work(&path.regs) {
        Work::Collect => collect(path, out),
        _ => Ok(()),
    }
}

// The event alone.
fn driver_event<A: Array>(path: &mut Path, array: &mut A) -> Act
    requires tied { AreTied path.old }
    requires fits { Fits (behind_path path.old (A.state array.old)) }
    ensures { HostEvent path.old (A.state array.old) path.new (A.state array.new) result }
{
    let cause = path.engine.cause(&path.regs);
    let act = card_events::driver_event(
        &mut path.driver,
        &mut path.regs,
        &mut path.mem,
        cause,
        &mut path.card,
        &mut path.script,
        array,
    );
    path.card.store().keeps_lines();
    act
}

// The lines that follow the event. `n`: the number of the last command.
fn lines_of(act: Act, n: u32) -> Lines
    ensures { result ≡ lines_behind n act }
{
    match act {
        Act::Nothing | Act::Collected { .. } => Lines::of(None, None),
        Act::Issued { id, tag } => Lines::of(Some(Item::Issue { id, tag }), None),
        Act::Failed { id, why } => Lines::of(failure(id, why), Some(Item::Recover)),
        Act::Step(step) => Lines::of(step_line(step, n), None),
    }
}

// The answer of the request that a stop ends.
fn failure(id: Option<u32>, why: Stop) -> Option<Item>
    ensures { line_in result ≡ fault_lines id why }
{
    match (id, why) {
        (None, _) | (_, Stop::Retry) => None,
        (Some(id), Stop::Bus) => Some(Item::Fault { id, why: Why::Bus }),
        (Some(id), Stop::Flash) => Some(Item::Fault {
            id,
            why: Why::Flash,
        }),
        (Some(id), Stop::Range) => Some(Item::Refused {
            id,
            why: Limit::Range,
        }),
    }
}

// The line of a step of the recovery.
fn step_line(step: Step, n: u32) -> Option<Item>
    ensures { line_in result ≡ step_lines n step }
{
    match step {
        Step::Discard => Some(Item::Discard { n }),
        Step::Again(kind) => Some(Item::Bus { n, kind, id: None }),
        Step::Moved | Step::Over | Step::Dark => None,
    }
}
