//! What each line of a trace may say, and when: the rule that it is under, and the lowest rule that it breaks in a state of
//! the storage machine.
#![tactic(auto)]

pub mod answers;
pub mod lines;
pub mod phases;
pub mod power;
pub mod steps;
