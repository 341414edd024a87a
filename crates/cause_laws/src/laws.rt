// What has to have happened for the lines of an event, and what a step leaves to do.
ghost use Rattle.cause_laws.specs.Causes.{AreExplained, AreFlushesExplained, AreJoined};
ghost use Rattle.cause_laws.specs.Falls.{DarkIsOfRequest, DoStepsFall};

use command_laws::commands_keep_ties;
use fall_laws::{engine_has_less_to_do, power_lost_leaves_no_more_to_do, used_lines_pay};
use host_falls::host_has_less_to_do;

/// The array's counts explain each line of a fault of the flash and each cut, and the power stays but for a cut.
#[tactic(auto)]
pub fn lines_have_causes()
    ensures events { AreExplained }
    ensures flushes { AreFlushesExplained }
    ensures joined { AreJoined }
{
    events_have_causes();
    flushes_have_causes();
    causes_join();
}

/// Each step that is the next one leaves less to do.
#[tactic(auto)]
pub fn next_steps_leave_less()
    ensures dark { DarkIsOfRequest }
    ensures falls { DoStepsFall }
{
    dark_is_of_request();
    steps_fall();
}

// Causes of lines that are joined are those of each.
fn causes_join()
    ensures { AreJoined }
{}

// The flush that ends a run.
fn flushes_have_causes()
    ensures { AreFlushesExplained }
{}

// Events of engine, host and card.
fn events_have_causes()
    ensures { AreExplained }
{
    host_has_less_to_do();
}

// An event of the engine in which power is lost.
fn dark_is_of_request()
    ensures { DarkIsOfRequest }
{
    commands_keep_ties();
    engine_has_less_to_do();
}

// Each step, by whose it is.
fn steps_fall()
    ensures { DoStepsFall }
{
    host_has_less_to_do();
    engine_has_less_to_do();
    power_lost_leaves_no_more_to_do();
    used_lines_pay();
}
