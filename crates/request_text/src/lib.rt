//! Request texts, read into plans: settings first, then requests, a line for each. Every line ends with a line feed,
//! and each setting and each request has exactly one spelling.
#![tactic(auto)]

mod blocks;
mod read;
mod request;
mod setting;

pub use read::read_requests;
pub use setting::{Kind, Setting};
