//! Long plans made from a number, the same each time: a load for a run.
#![tactic(auto)]

mod draws;
mod plan;

pub use plan::load_plan;
