//! A whole run: the opening, each next event until nothing is to do, and the last flush.
#![tactic(auto)]

mod run;

pub use run::{Stop, go_on, run_to_end};
