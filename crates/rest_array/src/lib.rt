//! The array of a run behind some moment of it.
#![tactic(auto)]

mod rest;

pub use rest::{RestArray, RestStart};
