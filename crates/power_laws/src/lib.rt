//! What events of the card and of power, and the flush that ends a run, make of the path.
#![tactic(auto)]

mod laws;

pub use laws::power_and_card_make_events;
