//! The commands of the card and its status word: what crosses the bus, in words (JESD84-B51, sections 6.6.39, 6.10.4
//! and 6.13).
#![tactic(auto)]

pub mod argument;
mod command;
pub mod index;
mod status;

pub use command::{Command, Illegal, Task};
pub use status::Status;
