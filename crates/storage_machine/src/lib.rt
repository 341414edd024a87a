//! The storage machine, which judges traces of the path: its state, and what is asked of it. The state holds contents, marks
//! and the standing of requests; descriptors, registers and cache lines are not in it.
#![tactic(auto)]

pub mod commands;
pub mod cuts;
mod flags;
pub mod host;
pub mod jobs;
mod marks;
mod put_index;
mod script;
pub mod slots;
mod state;
mod used;

pub use flags::Flags;
pub use marks::{Marks, extend};
pub use script::Script;
pub use state::{EpochList, Event, Owed, Recovery, Slot, Standing, State, Stop, Task};
pub use used::UsedLines;
