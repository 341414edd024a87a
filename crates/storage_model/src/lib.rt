//! The types that every layer of the path speaks of: sectors, requests, plans, fault texts and the lines of a trace;
//! and what contents under marks are, may be left as and are kept as.
#![tactic(auto)]

mod block;
mod contents;
mod ends;
mod faults;
mod form;
mod left;
mod marks;
mod plan;
mod sequence;
mod trace;

pub use block::{Block, BlockList, Bytes, GRANULES};
pub use contents::{count_bars, keep, now};
pub use ends::{Halt, NoMemory, TextEnd};
pub use faults::{
    ArrayHit, ArrayHits, BusKind, Faults, Hit, HitList, Letter, LetterList, WordList,
};
pub use form::Form;
pub use left::{left_allows, mix_allows};
pub use marks::{Kept, Mark, MarkList, Put};
pub use plan::{Fill, Job, JobList, Plan, block_of, is_direct, job_of};
pub use sequence::Sequence;
pub use trace::{End, Item, ItemList, Limit, Why};
