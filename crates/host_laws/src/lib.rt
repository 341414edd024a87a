//! What an event of the host driver makes of the way from driver to card: its lines are the storage machine's.
#![tactic(auto)]

mod laws;

pub use laws::host_events_are_the_machines;
