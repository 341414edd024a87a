// What the acceptance makes of a run, event by event.
ghost use Rattle.run_events.specs.Laws.{IsEndTaken, IsFrontTaken, IsRunTaken, IsTaken};
ghost use Rattle.std.specs.Prelude.{List};
ghost use Rattle.storage_machine.specs.declared.state.State.{State};
ghost use Rattle.storage_model.specs.declared.trace.End.{End};
ghost use Rattle.storage_model.specs.declared.trace.Item.{Item};

/// The acceptance of traces takes the lines of each event that comes next, and then stands where the event leads; lines
/// that only begin that event are taken too; so it takes the events of a run, and the line that ends it.
#[tactic(auto)]
pub fn acceptance_takes_events()
    ensures event { (before : Item) → (m s t : State) → (lines : List Item) → IsTaken before m s t lines }
    ensures front { (m s last : State) → (lines : List Item) → IsFrontTaken m s last lines }
    ensures run { (before : Item) → (m s t : State) → (events : List (List Item)) → IsRunTaken before m s t events }
    ensures end { (m s : State) → (end : End) → IsEndTaken m s end }
{}
