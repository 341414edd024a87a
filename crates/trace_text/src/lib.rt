//! The lines of a trace.
#![tactic(auto)]

mod fields;
mod item;
mod keyword;
mod read;
mod write;

pub use read::{MAX_BYTES, next_item, read_items};
pub use write::put_item;
