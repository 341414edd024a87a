// How an event begins in a trace.
ghost use Rattle.run_lines.specs.Laws.{IsFirstTaken};
ghost use Rattle.storage_machine.specs.declared.state.State.{State};
ghost use Rattle.storage_model.specs.declared.trace.Item.{Item};

/// The acceptance of traces takes the first line of the event that comes next, where no letter tells of it and the event
/// before is over.
#[tactic(auto)]
pub fn acceptance_takes_first_lines()
    ensures { (m s : State) → (item : Item) → IsFirstTaken m s item }
{}
