//! What has to have happened for the lines of an event, and that the next step of a run leaves less to do.
#![tactic(auto)]

mod laws;

pub use laws::{lines_have_causes, next_steps_leave_less};
