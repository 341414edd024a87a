//! The registers of the host interface (host interface annex of JESD84-B51): what each of them reads, what a write of it
//! does, and how far the tasks of the 32 slots have come. In the Linux driver they are the CQHCI_ offsets of
//! drivers/mmc/host/cqhci.h.
#![tactic(auto)]

mod coalesce;
mod registers;
mod slots;
mod table;

pub use coalesce::Coalescing;
pub use registers::{
    HALT_COMPLETE, NoRegister, RESPONSE_ERROR, Regs, TASK_COMPLETE, TASKS_CLEARED,
};
pub use slots::{Progress, Ringed};
pub use table::{Access, Register, Row, TABLE, row_at};
