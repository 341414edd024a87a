//! A run ends: what is left to do falls with each event of the engine that it chooses, and with each loss of power.
#![tactic(auto)]

mod laws;

pub use laws::{engine_has_less_to_do, power_lost_leaves_no_more_to_do, used_lines_pay};
