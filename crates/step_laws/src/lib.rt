//! A step of a run, put together: its letter's line, its event and what comes of a loss of power in it.
#![tactic(auto)]

mod laws;

pub use laws::steps_are_taken;
