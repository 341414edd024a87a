//! The walk of a chain of transfer descriptors: which pieces of the memory a task's data lies in (JESD84-B51, annex B).
#![tactic(auto)]

mod chain;
mod fault;
mod pieces;

pub use chain::walk;
pub use fault::ChainFault;
pub use pieces::{LONGEST_CHAIN, Piece, Pieces};
