//! The commands of the program, over any array, sources and sink.
#![tactic(auto)]

mod command;
mod listing;
mod load;
mod make;
mod opening;
mod prepare;
mod raw;
mod refusal;
mod run;
mod texts;

pub use command::{new_pages, run_command, text_words};
