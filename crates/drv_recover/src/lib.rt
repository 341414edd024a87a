//! The recovery of the host interface after a stop of the engine, an event at a time (cqhci_recovery_start and
//! cqhci_recovery_finish of drivers/mmc/host/cqhci-core.c).
#![tactic(auto)]

mod recovery;

pub use recovery::{Recovery, RecoveryState, Step};
