// What the array shows where an event breaks off in one of its lines.
ghost use Rattle.front_laws.specs.Fronts.{CardIsNear, EngineIsNear, HostIsNear, KeepsNear, PowerIsNear};

/// What is near a state is near it whatever letters are used, whose event it is, and what is owed. An event of the engine has a phase's line first,
/// if at all, the host's lines change neither contents nor marks, and an event of the card or of power has one line at most.
#[tactic(auto)]
pub fn events_stay_near()
    ensures keeps { KeepsNear }
    ensures engine { EngineIsNear }
    ensures host { HostIsNear }
    ensures card { CardIsNear }
    ensures power { PowerIsNear }
{}
