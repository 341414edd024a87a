// What an event of a phase makes of the path.
ghost use Rattle.phase_laws.specs.Laws.{KeepsTies};
ghost use Rattle.world_state.specs.Steps.{PhaseSteps, is_of_phase};

/// An event of a phase, in which a block of a data phase is due, or its end, or a direct command, keeps the ties, whatever the array tells; and where
/// it tells its pages, the lines are the storage machine's, however the event ends.
#[tactic(auto)]
pub fn phases_step()
    ensures ties { KeepsTies is_of_phase }
    ensures steps { PhaseSteps }
{}
