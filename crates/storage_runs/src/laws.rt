// What runs and the acceptance have to do with each other.
ghost use Rattle.std.specs.Prelude.{List};
ghost use Rattle.storage_machine.specs.declared.state.State.{State};
ghost use Rattle.storage_model.specs.declared.faults.Letter.{Letter};
ghost use Rattle.storage_model.specs.declared.trace.Item.{Item};
ghost use Rattle.storage_runs.specs.Laws.{IsLetterTaken, IsMoreTaken};

/// The acceptance of traces takes the line of the letter that is next, and the further lines of an event.
#[tactic(auto)]
pub fn acceptance_takes_lines()
    ensures letter { (m s : State) → (letter : Letter) → IsLetterTaken m s letter }
    ensures further { (s t : State) → (items : List Item) → IsMoreTaken s t items }
{}
