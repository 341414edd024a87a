//! Fault texts: which bus commands and array calls fail and how, before which commands the power is cut, what the polls
//! find ready, and who acts next. Every text is lines that each end with a line feed, and each line has exactly one
//! spelling.
#![tactic(auto)]

mod fields;
mod keyword;
mod line;
mod numbers;
mod read;
mod tally;

pub use line::FaultLine;
pub use read::read_faults;
