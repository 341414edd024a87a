//! A flash array of pages, each of one block, that may fail or lose power at a call.
#![tactic(auto)]

mod array;
mod file_array;
mod hits;
mod mem_array;
mod run_array;
mod script_array;

pub use array::{Array, ArrayEnd};
pub use file_array::FileArray;
pub use mem_array::MemArray;
pub use run_array::{RunArray, RunStart};
pub use script_array::ScriptArray;
