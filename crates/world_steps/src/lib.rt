//! A run between two events: whose event comes next, and what a step has to print of it.
#![tactic(auto)]

mod laws;

pub use laws::{phases_yield_to_cuts, runs_are_read};
