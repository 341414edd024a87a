//! The run of a load: its plan is made from a number, no fault is to come, and its lines are counted.
#![tactic(auto)]

mod run;

pub use run::{Loaded, run_load};
