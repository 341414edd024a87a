//! The order that a fault text gives to events: its letters and its `cut` lines, and what of them a run has used. An answer takes the same
//! time for every text, since the used lines are always the first ones.
#![tactic(auto)]

mod order;

pub use order::Order;
