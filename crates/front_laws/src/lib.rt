//! What the array shows while the lines of an event are written: it is near the state after each whole line.
#![tactic(auto)]

mod laws;

pub use laws::events_stay_near;
