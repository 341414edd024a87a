//! The descriptors of the command queueing host interface, as words and as values: task descriptors, direct command
//! descriptors and transfer descriptors, in the 64-bit and the 128-bit form.
#![tactic(auto)]

mod direct;
mod fault;
pub mod layout;
mod task;
mod xfer;

pub use direct::{DirectDesc, read_direct, write_direct};
pub use fault::DescFault;
pub use task::{TaskDesc, read_task, write_task};
pub use xfer::{Xfer, read_xfer, write_xfer};
