// What a run's state says of the storage machine's.
ghost use Rattle.world_steps.specs.Reading.{DoPhasesYield, DoesStayPrompt, IsRead};

/// What is to do, whether a cut is due, whose event comes next and which letter its line shows is read off path, letters and
/// `cut` lines.
#[tactic(auto)]
pub fn runs_are_read()
    ensures { IsRead }
{}

/// Where each event is the one that comes next, a phase yields to the `cut` line of its own number.
#[tactic(auto)]
pub fn phases_yield_to_cuts()
    ensures yields { DoPhasesYield }
    ensures stays { DoesStayPrompt }
{}
