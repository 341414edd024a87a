//! The host driver's part of the memory that it shares with the engine: where its task descriptor list, its chains and the
//! pieces of its data stand, how a job is written there, and how a block is read back (cqhci_prep_task_desc, cqhci_prep_tran_desc and
//! cqhci_prep_dcmd_desc of drivers/mmc/host/cqhci-core.c).
#![tactic(auto)]

mod data;
mod job;
mod places;
mod table;
mod task;
mod words;

pub use places::{
    CHUNK_BYTES, CHUNK_ROWS, FIRST_PIECE, FIRST_TABLE, Layout, MOST_BLOCKS, MOST_DEPTH,
    PIECE_BYTES, TABLE_BYTES, TAG_BYTES,
};
pub use task::{CARD, FLUSH_CACHE, RESPONSE_R1, RESPONSE_R1B, SET_BARRIER};
