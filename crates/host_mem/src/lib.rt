//! The memory that the host shares with the command queueing engine: a range of addresses with a byte at each.
#![tactic(auto)]

mod memory;
mod pages;

pub use memory::{HostMem, OutOfMemorySpace};
