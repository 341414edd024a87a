//! An event of the host driver over the card, and its lines in the trace.
#![tactic(auto)]

mod answers;
mod event;

pub use event::host_event;
