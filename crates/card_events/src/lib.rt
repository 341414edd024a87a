//! Events over the bus to the card: of the engine, and of the host driver. What is said of them names card, array and script as
//! they are, and no longer the link.
#![tactic(auto)]

mod driver;
mod engine;

pub use driver::driver_event;
pub use engine::engine_event;
