//! The card: what each command has it answer and do, and its data phases, block by block, over the store of its sectors
//! (JESD84-B51, sections 6.6.39, 6.10.4 and 6.13).
#![tactic(auto)]

mod card;
mod ends;
mod phase;

pub use card::Card;
pub use ends::{BlockEnd, Dark};
pub use phase::{DIRECT_TASK, DataPhase, Phase};
