//! The events of the command queueing engine: the one command or block of each on the link to the card, and what its answer
//! does to registers, held tasks and memory (host interface annex of JESD84-B51).
#![tactic(auto)]

mod calls;
mod did;
mod effects;
mod engine;
mod words;

pub use cq_task::DropCause;
pub use did::Did;
pub use engine::Engine;
