// The end of a run.
ghost use Rattle.std.specs.Prelude.{◌≡◌, false, [], Err, Ok};
ghost use Rattle.storage_model.specs.Count.{Later, Rose};
ghost use Rattle.storage_model.specs.declared.ends.Halt.TheVariants.{SinkFailed};
ghost use Rattle.cut_order.specs.Order.{OrderState};
ghost use Rattle.world.specs.Runs.{Finishes, IsAgain, in_order};
ghost use Rattle.world.specs.declared.finish.Finish.TheVariants.{Again};
ghost use Rattle.world_state.specs.Ties.{IsReady};
ghost use Rattle.world_steps.specs.World.{is_to_do};

use crate::world::World;
use array_edge::Array;
use cause_laws::lines_have_causes;
use dark_laws::back_again;
use end_laws::runs_end_by_flush;
use intent_store::StoreEnd;
use io_edge::Sink;
use join_laws::flushes_lose_power;
use power_laws::power_and_card_make_events;
use power_step::{Pending, cut, flush_all};
use state_laws::state_is_read;
use storage_model::{End, Halt, Item};
use trace_print::print;
use world_state::Path;
use world_steps::runs_are_read;

/// How the end of a run went.
#[derive(Clone, Copy, Debug, PartialEq, Eq)]
pub enum Finish {
    /// All is kept, and the last line is printed.
    Off,
    /// Power was lost, and came again: the run goes on.
    Again,
}

impl World {
    /// Stages all lines, and ends the run.
    ///
    /// # Errors
    ///
    /// `OpenFault` where the array failed, and as for `step`.
    pub fn finish<A: Array, K: Sink>(&mut self, array: &mut A, out: &mut K) -> Result<Finish, Halt>
        requires ready { IsReady self.old.path (A.state array.old) }
        requires none { is_to_do self.old.path ≡ false }
        ensures finishes { Finishes K.took self.old (A.state array.old) out.old result self.new (A.state array.new) out.new }
        ensures again { result ≡ Ok Again → IsAgain self.old self.new (A.state array.new) }
        ensures once { self.old.path.card.store.cache.lines ≡ [] → result ≡ Ok Again → ⊥ }
        ensures faults { Later (K.faults out.old) (K.faults out.new) }
        ensures failed { result ≡ Err SinkFailed → Rose (K.faults out.old) (K.faults out.new) }
    {
        end_run(&mut self.path, &mut self.pending, array, out)
    }
}

// The last flush, and the end's line behind it, or its cut.
fn end_run<A: Array, K: Sink>(
    path: &mut Path,
    pending: &mut Pending,
    array: &mut A,
    out: &mut K,
) -> Result<Finish, Halt>
    requires ready { IsReady path.old (A.state array.old) }
    requires none { is_to_do path.old ≡ false }
    ensures finishes { (order : OrderState) → Finishes K.took (in_order path.old order) (A.state array.old) out.old result (in_order path.new order) (A.state array.new) out.new }
    ensures again { (order : OrderState) → result ≡ Ok Again → IsAgain (in_order path.old order) (in_order path.new order) (A.state array.new) }
    ensures once { path.old.card.store.cache.lines ≡ [] → result ≡ Ok Again → ⊥ }
    ensures faults { Later (K.faults out.old) (K.faults out.new) }
    ensures failed { result ≡ Err SinkFailed → Rose (K.faults out.old) (K.faults out.new) }
{
    runs_are_read();
    state_is_read();
    lines_have_causes();
    runs_end_by_flush();
    power_and_card_make_events();
    flushes_lose_power();
    back_again();
    match flush_all(path, array) {
        Ok(()) => {
            print(&Item::Off { end: End::Good }, out)?;
            Ok(Finish::Off)
        }
        Err(StoreEnd::Flash) => {
            print(&Item::Off { end: End::Fault }, out)?;
            Err(Halt::OpenFault)
        }
        Err(StoreEnd::PowerLost) => {
            cut(path, pending, array, out)?;
            Ok(Finish::Again)
        }
    }
}
