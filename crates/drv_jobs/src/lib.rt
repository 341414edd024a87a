//! The requests of a run as the driver has them: which wait, which tag each of the others is issued with, and which may be
//! issued next (drivers/mmc/host/cqhci-core.c, and the request queue above it).
#![tactic(auto)]

mod counts;
mod holders;
mod next;
mod requests;

pub use next::{DIRECT_TAG, Due, Hold};
pub use requests::{MOST_FAULTS, Requests};
