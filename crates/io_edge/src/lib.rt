//! Texts come from sources and go to sinks, and either may fail.
#![tactic(auto)]

mod any_source;
mod counter;
mod mem_sink;
mod mem_source;
mod put;
mod sink;
mod source;
mod std_edge;
mod take;

pub use any_source::{AnySource, EmptySource, NoSource};
pub use mem_sink::MemSink;
pub use mem_source::MemSource;
pub use put::put_all;
pub use sink::Sink;
pub use source::Source;
pub use std_edge::{StdSink, StdSource};
pub use take::{TakeEnd, take_all};

/// A source or a sink failed; its count of faults says so.
#[derive(Clone, Copy, Debug, PartialEq, Eq)]
pub struct Failed;
