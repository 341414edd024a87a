//! From a state in which power is lost to the lines behind its cut, and to the path that is set up anew.
#![tactic(auto)]

mod laws;

pub use laws::{back_again, dark_ends, dark_keeps, held_are_cut};
