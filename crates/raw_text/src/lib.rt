//! Raw scripts: accesses of the host's memory and of the engine's registers, a line for each. Every line ends with a
//! line feed, and each operation has exactly one spelling.
#![tactic(auto)]

mod fields;
mod keyword;
mod line;
mod op;
mod read;

pub use op::{RawList, RawOp};
pub use read::read_raw;
