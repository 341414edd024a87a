//! A run ends: what is left to do falls with each event of the host that has work.
#![tactic(auto)]

mod laws;

pub use laws::host_has_less_to_do;
