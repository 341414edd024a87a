// What the acceptance makes of whole runs.
ghost use Rattle.run_laws.specs.Whole.{IsWholeFrontTaken, IsWholeTaken};
ghost use Rattle.std.specs.Prelude.{List};
ghost use Rattle.storage_machine.specs.declared.state.State.{State};
ghost use Rattle.storage_model.specs.declared.block.Block.{Block};
ghost use Rattle.storage_model.specs.declared.faults.Faults.{Faults};
ghost use Rattle.storage_model.specs.declared.plan.Plan.{Plan};
ghost use Rattle.storage_model.specs.declared.trace.Item.{Item};

/// The acceptance of traces takes a whole run, from the card line to the end, and what a run wrote up to the failure of its
/// sink.
#[tactic(auto)]
pub fn acceptance_takes_whole_runs()
    ensures whole { (base : List Block) → (plan : Plan) → (faults : Faults) → (lines : List Item) → (t : State) → IsWholeTaken base plan faults lines t }
    ensures written { (base : List Block) → (plan : Plan) → (faults : Faults) → (lines : List Item) → IsWholeFrontTaken base plan faults lines }
{}
