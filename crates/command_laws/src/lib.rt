//! What an event of the engine makes of the path, where a command of the queue is due or nothing is: the ties hold again, and its lines are the
//! storage machine's.
#![tactic(auto)]

mod laws;

pub use laws::{commands_keep_ties, commands_step};
