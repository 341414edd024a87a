//! The lines that follow a loss of power, from the first `cut` to the state in which the next event begins.
#![tactic(auto)]

mod laws;

pub use laws::{lost_are_shown, power_is_shown};
