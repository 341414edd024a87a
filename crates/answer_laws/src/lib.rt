//! Answers: a trace without loss of power and without flash faults answers each request once.
#![tactic(auto)]

mod laws;

pub use laws::requests_are_answered;
