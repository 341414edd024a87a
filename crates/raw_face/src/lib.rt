//! Raw scripts: accesses of the host's memory and of the engine's registers, and the engine's events over a card.
#![tactic(auto)]

mod access;
mod going;
mod print;
mod raw;
mod reply;
mod sector;

pub use raw::Raw;
