//! The phases: what an event of the engine makes of the path where a block moves, a data phase ends or a direct command is served.
#![tactic(auto)]

mod laws;

pub use laws::phases_step;
