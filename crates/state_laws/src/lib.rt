//! What driver, registers, engine, card and bus say of the state of the storage machine that they stand for.
#![tactic(auto)]

mod laws;

pub use laws::state_is_read;
