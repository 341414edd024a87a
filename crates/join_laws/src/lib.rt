//! The lines of a step, joined of those of its event, of the cut in it and of what follows the cut.
#![tactic(auto)]

mod laws;

pub use laws::{cuts_use_lines, events_break_off, events_go_on, flushes_lose_power};
