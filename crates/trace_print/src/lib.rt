//! Lines of a trace to a sink, and what has to have happened for some of them to be printed.
#![tactic(auto)]

mod printing;

pub use printing::{Lines, print};
