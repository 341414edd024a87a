use crate::bytes::Peeked;
use cq_task::DropCause;
use storage_model::Block;

/// One line that a raw script prints.
#[derive(Drop)]
pub enum RawLine {
    /// The task of a slot is done.
    Done { slot: u8 },
    /// The task of a slot is dropped.
    Dropped { slot: u8, cause: DropCause },
    /// The task of a slot failed with a response that has an error bit, and the engine stopped.
    Stopped { slot: u8, response: u32 },
    /// What `peek` shows.
    Memory { bytes: Peeked },
    /// What `r` shows.
    Register { reg: u8, value: u32 },
    /// What `show` shows.
    Sector { value: Block },
    /// A range isn't all in the memory, or a sector isn't one of the card's.
    Outside,
    /// There is no register at this offset.
    NoRegister { reg: u8 },
    /// A sector could not be read.
    Unread,
}
