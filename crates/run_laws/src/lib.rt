//! Whole runs of the storage machine, from the first line of a trace to its last. The acceptance of traces takes each.
#![tactic(auto)]

mod laws;

pub use laws::acceptance_takes_whole_runs;
