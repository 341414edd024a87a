//! What each line of a trace does to the storage machine.
#![tactic(auto)]

pub mod apply;
mod cut_effects;
mod effects;
mod keeping;
mod lists;
mod phase_effects;

pub use effects::letters_left;
