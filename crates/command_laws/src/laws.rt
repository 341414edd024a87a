// What a command of the queue makes of the path.
ghost use Rattle.command_laws.specs.Commands.{CommandPower, CommandTies};
ghost use Rattle.world_state.specs.Steps.{CommandSteps};

/// After an event of the engine in which a command of the queue is due, or nothing, the holders agree with each other again, whatever the array tells;
/// and power is not lost in it.
#[tactic(auto)]
pub fn commands_keep_ties()
    ensures ties { CommandTies }
    ensures power { CommandPower }
{}

/// Where the array tells its pages, the lines of such an event are the storage machine's: where nothing is sent, and for CMD44, for CMD45, also of a
/// task past the last sector, for CMD13, and for CMD46 and CMD47, each answered, lost or without response.
#[tactic(auto)]
pub fn commands_step()
    ensures steps { CommandSteps }
{}
