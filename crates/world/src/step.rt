// One event of an actor, with its lines.
ghost use Rattle.std.specs.Prelude.{◌≡◌, Err};
ghost use Rattle.storage_model.specs.Count.{Later, Rose};
ghost use Rattle.storage_model.specs.declared.ends.Halt.TheVariants.{SinkFailed};
ghost use Rattle.card_link.specs.Behind.{Fits};
ghost use Rattle.step_laws.specs.Laws.{MaySteps};
ghost use Rattle.step_laws.specs.Steps.{IsStep, behind_step};
ghost use Rattle.world.specs.Begins.{ActedBy, BeginsStep};
ghost use Rattle.world_state.specs.Path.{behind_path};
ghost use Rattle.world_state.specs.Ties.{AreTied};

use crate::acts::{act_card, act_engine, act_host, lose_power};
use crate::world::World;
use array_edge::Array;
use io_edge::Sink;
use state_laws::state_is_read;
use step_laws::steps_are_taken;
use storage_model::{Halt, Item, Letter};
use trace_print::print;
use world_steps::runs_are_read;

impl World {
    /// One event of an actor, whoever is next. It uses the due `cut` line where power acts, else the next letter where it is the
    /// actor's, and prints that first.
    ///
    /// # Errors
    ///
    /// `SinkFailed` where the sink failed; behind a cut also `OpenFault` where the array failed, `PowerGone` where 8 openings in
    /// a row were cut, and `BadImage` where the pages are no image.
    pub fn step<A: Array, K: Sink>(
        &mut self,
        actor: Letter,
        array: &mut A,
        out: &mut K,
    ) -> Result<(), Halt>
        requires may { MaySteps self.old (A.state array.old) }
        ensures step { IsStep K.took self.old actor (A.state array.old) out.old result self.new (A.state array.new) out.new }
        ensures faults { Later (K.faults out.old) (K.faults out.new) }
        ensures failed { result ≡ Err SinkFailed → Rose (K.faults out.old) (K.faults out.new) }
    {
        steps_are_taken::<K>();
        state_is_read();
        runs_are_read();
        self.begin(actor, out)?;
        self.act(actor, array, out)
    }

    // Uses the due line or the next letter, and prints the letter's line.
    fn begin<K: Sink>(&mut self, actor: Letter, out: &mut K) -> Result<(), Halt>
        ensures world { self.new ≡ behind_step self.old actor self.old.path }
        ensures lines { BeginsStep K.took self.old actor out.old result out.new }
        ensures faults { Later (K.faults out.old) (K.faults out.new) }
        ensures failed { result ≡ Err SinkFailed → Rose (K.faults out.old) (K.faults out.new) }
    {
        if self.uses_line(actor) {
            self.order.use_cut(self.path.script.sent());
            return Ok(());
        }
        if self.has_letter(actor) {
            self.order.use_letter();
            return print(&Item::Turn { letter: actor }, out);
        }
        Ok(())
    }

    // The actor's event.
    fn act<A: Array, K: Sink>(
        &mut self,
        actor: Letter,
        array: &mut A,
        out: &mut K,
    ) -> Result<(), Halt>
        requires tied { AreTied self.old.path }
        requires fits { Fits (behind_path self.old.path (A.state array.old)) }
        ensures acted { ActedBy K.took actor self.old.path (A.state array.old) out.old result self.new.path (A.state array.new) out.new }
        ensures order { self.new.order ≡ self.old.order }
        ensures faults { Later (K.faults out.old) (K.faults out.new) }
        ensures failed { result ≡ Err SinkFailed → Rose (K.faults out.old) (K.faults out.new) }
    {
        match actor {
            Letter::Host => act_host(&mut self.path, array, out),
            Letter::Engine => act_engine(&mut self.path, &mut self.pending, array, out),
            Letter::Card => act_card(&mut self.path, &mut self.pending, array, out),
            Letter::Cut => lose_power(&mut self.path, &mut self.pending, array, out),
        }
    }
}
