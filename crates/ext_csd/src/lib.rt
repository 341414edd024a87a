//! The extended CSD of the card: the table of its fields, what they read as, and what a SWITCH makes of them
//! (JESD84-B51, section 7.4).
#![tactic(auto)]

mod csd;
mod field;
mod switch;

pub use csd::ExtCsd;
pub use field::{FIELDS, Field, NAMES, Reading, Row};
pub use switch::{Change, SwitchError};
