//! What a slot of the task descriptor list means: a direct command, a data task with the pieces of its data, or a cause to
//! drop it (JESD84-B51, annex B).
#![tactic(auto)]

mod list;
mod slot;

pub use list::{DIRECT_COMMANDS, DIRECT_SLOT, SLOTS, TaskList, WIDE_DESCRIPTORS};
pub use slot::{BLOCK_BYTES, DataTask, DropCause, SlotTask, has_barrier, read_slot};
