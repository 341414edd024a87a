//! The lines that a raw script prints.
#![tactic(auto)]

mod bytes;
mod raw_line;
mod write;

pub use bytes::Peeked;
pub use raw_line::RawLine;
pub use write::put_raw_line;
