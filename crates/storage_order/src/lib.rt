//! The order of events, and the acceptance of traces.
#![tactic(auto)]

mod accept;
pub mod events;
mod order;
mod start;

pub use accept::{MState, Refuse, accept_item, accept_items};
pub use order::Silent;
