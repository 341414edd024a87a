//! The data of a task as blocks of 512 bytes: read from the pieces of the memory that it lies in, and written to them.
#![tactic(auto)]

mod data;

pub use data::{read_block, write_block};
