//! The tags of the driver: which slots of the task descriptor list its requests use (drivers/mmc/host/cqhci-core.c).
#![tactic(auto)]

mod tags;

pub use tags::Tags;
