//! The tasks that the command queueing engine holds, and what it does next (host interface annex of JESD84-B51).
#![tactic(auto)]

mod held;
mod rules;
mod schedule;

pub use held::{HeldTask, HeldTasks};
pub use rules::Due;
pub use schedule::{due, first_at};
