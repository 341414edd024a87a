//! A cache of sectors on their way to flash, whose lines are parted into epochs by barriers (JESD84-B51, the cache and its
//! barrier).
#![tactic(auto)]

mod cache;
mod line;
mod recent;
mod table;

pub use cache::{EpochCache, Full};
pub use line::Line;
