// What the events of the host tell.
ghost use Rattle.world_state.specs.Steps.{HostSteps};

/// An event of the host keeps the ties of the path, and its lines are an event of the storage machine's host.
#[tactic(auto)]
pub fn host_events_are_the_machines()
    ensures steps { HostSteps }
{}
