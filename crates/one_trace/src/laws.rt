// Without faults there is one trace.
ghost use Rattle.one_trace.specs.Traces.{IsFront, IsOneNext, IsOneRun, IsOneTrace};
ghost use Rattle.std.specs.Prelude.{List};
ghost use Rattle.storage_machine.specs.declared.state.State.{State};
ghost use Rattle.storage_model.specs.declared.block.Block.{Block};
ghost use Rattle.storage_model.specs.declared.faults.Faults.{Faults};
ghost use Rattle.storage_model.specs.declared.plan.Plan.{Plan};
ghost use Rattle.storage_model.specs.declared.trace.Item.{Item};

/// Without faults a state that is reached has at most one next line; two traces from the same contents and plan to a good
/// end are the same, and lines that are accepted are the first of that trace; two whole runs are the same too.
#[tactic(auto)]
pub fn traces_are_one()
    ensures next { (base : List Block) → (plan : Plan) → (faults : Faults) → (lines : List Item) → (s : State) → IsOneNext base plan faults lines s }
    ensures whole { (base : List Block) → (plan : Plan) → (faults : Faults) → (lines others : List Item) → (s t : State) → IsOneTrace base plan faults lines others s t }
    ensures front { (base : List Block) → (plan : Plan) → (faults : Faults) → (lines others : List Item) → (s t : State) → IsFront base plan faults lines others s t }
    ensures run { (base : List Block) → (plan : Plan) → (faults : Faults) → (lines others : List Item) → (s t : State) → IsOneRun base plan faults lines others s t }
{}
