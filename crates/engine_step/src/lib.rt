//! An event of the engine over the card, and its lines in the trace.
#![tactic(auto)]

mod event;
mod lines;

pub use event::{EngineTold, engine_event};
pub use lines::{engine_lines, phase_line};
