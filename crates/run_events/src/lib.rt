//! The events of a run: the acceptance of traces takes each that comes next, whichever letters are left.
#![tactic(auto)]

mod laws;

pub use laws::acceptance_takes_events;
