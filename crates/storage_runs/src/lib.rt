//! Runs of the storage machine: one event after the other, in the order that the rules ask for; and where the acceptance of
//! traces stands beside a run.
#![tactic(auto)]

mod laws;

pub use laws::acceptance_takes_lines;
