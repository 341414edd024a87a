//! The queue of the card: the tasks that wait in it, and which of them are ready (JESD84-B51, section 6.6.39).
#![tactic(auto)]

mod queue;

pub use queue::{QueueRefusal, Queued, TaskQueue};
