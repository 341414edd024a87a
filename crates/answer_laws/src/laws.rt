// Every request has its answer.
ghost use Rattle.answer_laws.specs.Answers.{HasFewFaults, IsAnswered, IsFaultless, IsOfRequest, IsPrinted};
ghost use Rattle.std.specs.Prelude.{List, ℕ};
ghost use Rattle.storage_machine.specs.declared.state.State.{State};
ghost use Rattle.storage_model.specs.declared.block.Block.{Block};
ghost use Rattle.storage_model.specs.declared.faults.Faults.{Faults};
ghost use Rattle.storage_model.specs.declared.plan.Plan.{Plan};
ghost use Rattle.storage_model.specs.declared.trace.End.{End};
ghost use Rattle.storage_model.specs.declared.trace.Item.{Item};

/// A trace without `flash` and `cut`, to its end, has one answer for each request, and none else. It is the request's
/// own, but for one past the last sector, which is refused, and one that four bus faults named; more never do. Without bus
/// faults in the fault text no answer is a fault. Whole runs print such traces.
#[tactic(auto)]
pub fn requests_are_answered()
    ensures each { (base : List Block) → (plan : Plan) → (faults : Faults) → (lines : List Item) → (id : ℕ) → IsAnswered base plan faults lines id }
    ensures few { (base : List Block) → (plan : Plan) → (faults : Faults) → (lines : List Item) → (id : ℕ) → HasFewFaults base plan faults lines id }
    ensures none_else { (base : List Block) → (plan : Plan) → (faults : Faults) → (lines : List Item) → (id : ℕ) → IsOfRequest base plan faults lines id }
    ensures faultless { (base : List Block) → (plan : Plan) → (faults : Faults) → (lines : List Item) → (id : ℕ) → IsFaultless base plan faults lines id }
    ensures run { (base : List Block) → (plan : Plan) → (faults : Faults) → (lines : List Item) → (s : State) → (end : End) → IsPrinted base plan faults lines s end }
{}
