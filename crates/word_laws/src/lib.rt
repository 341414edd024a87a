//! The words that stop the engine: the card's response does so only with an error that ends a request.
#![tactic(auto)]

mod laws;

pub use laws::engine_stops_by_error;
