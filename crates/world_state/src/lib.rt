//! The state of the storage machine, as driver, registers, host memory, engine, card and bus hold it.
#![tactic(auto)]

mod path;

pub use path::Path;
