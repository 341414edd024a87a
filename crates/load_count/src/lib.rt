//! A sink that counts the lines of a trace and stores none, and the lines that tell its counts.
#![tactic(auto)]

mod counts;
mod line;
mod sink;
mod tell;

pub use counts::Counts;
pub use sink::CountingSink;
pub use tell::put_counts;
