//! The first line of each event of a run, as the acceptance of traces takes it.
#![tactic(auto)]

mod laws;

pub use laws::acceptance_takes_first_lines;
