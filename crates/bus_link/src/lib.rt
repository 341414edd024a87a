//! The bus between host and card: its faults, and the commands that crossed it.
#![tactic(auto)]

mod hits;
mod link;
mod script;

pub use link::{Cause, Link, LinkEnd};
pub use script::ScriptLink;
