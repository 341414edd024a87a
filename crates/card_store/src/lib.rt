//! The store of the card: a cache of barrier epochs over the sectors of an image, staged to the array epoch by epoch
//! (JESD84-B51, the cache, its barrier and reliable write).
#![tactic(auto)]

mod ends;
mod sector_set;
mod stage;
mod store;

pub use ends::StageEnd;
pub use store::CardStore;
