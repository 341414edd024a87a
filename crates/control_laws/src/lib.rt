//! The two parts of a state of the storage machine: its contents, and control, which is all else and whose rules don't hang on them.
#![tactic(auto)]

mod laws;

pub use laws::control_stands_alone;
