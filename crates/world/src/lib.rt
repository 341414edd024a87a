//! A run, one event at a time: host driver, engine, card and power as actors over one array. Each step prints the lines of its
//! event.
#![tactic(auto)]

mod acts;
mod boot;
mod choose;
mod finish;
mod step;
mod world;

pub use finish::Finish;
pub use world::World;
