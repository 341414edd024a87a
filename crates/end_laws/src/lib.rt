//! The beginning of a run, where its path is opened, and its end, where the card stages all that its cache holds.
#![tactic(auto)]

mod laws;

pub use laws::{runs_begin_sound, runs_end_by_flush, runs_stand_opened};
