//! The link from the host interface to a card: commands and blocks go through the bus's script of faults to the card and its
//! array.
#![tactic(auto)]

mod calls;
mod link;

pub use link::CardLink;
