// A step of a run, put together.
ghost use Rattle.step_laws.specs.Laws.{AreCauses, AreEvents, AreLines, AreSteps};

use cause_laws::{lines_have_causes, next_steps_leave_less};
use command_laws::commands_step;
use front_laws::events_stay_near;
use host_laws::host_events_are_the_machines;
use io_edge::Sink;
use join_laws::{events_break_off, events_go_on};
use phase_laws::phases_step;
use power_laws::power_and_card_make_events;
use state_laws::state_is_read;
use word_laws::engine_stops_by_error;
use world_steps::{phases_yield_to_cuts, runs_are_read};

/// Behind the line of its letter, an actor's event with its lines is a step of the run.
#[tactic(auto)]
pub fn steps_are_taken<K: Sink>()
    ensures { AreSteps K.took }
{
    events_are_known();
    lines_are_known();
    causes_are_known();
}

// What an event makes of the path and of the machine's state.
fn events_are_known()
    ensures { AreEvents }
{
    state_is_read();
    commands_step();
    phases_step();
    host_events_are_the_machines();
    power_and_card_make_events();
    runs_are_read();
    phases_yield_to_cuts();
}

// What its lines tell, whole or broken off.
fn lines_are_known()
    ensures { AreLines }
{
    events_go_on();
    events_break_off();
    events_stay_near();
}

// What has to have happened, and what is left to do.
fn causes_are_known()
    ensures { AreCauses }
{
    lines_have_causes();
    next_steps_leave_less();
    engine_stops_by_error();
}
