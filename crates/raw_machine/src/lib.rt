//! What a raw script drives, the host's memory, the registers of the host interface, the engine, and the card behind its bus:
//! an event of the engine over the card, and whether the engine goes on after it.
#![tactic(auto)]

mod going;

pub use going::goes_on;
