use crate::{Block, BlockList, Sequence};

/// A sector's new value. A reliable one leaves the sector old or new, never a mix.
#[derive(Clone, Copy, Debug, PartialEq, Eq)]
pub struct Put {
    pub sector: u32,
    pub value: Block,
    pub reliable: bool,
}

/// What a cache holds of the past: puts, and the barriers that part them into epochs.
#[derive(Clone, Copy, Debug, PartialEq, Eq)]
pub enum Mark {
    Put(Put),
    Bar,
}

pub type MarkList = Sequence<Mark>;

/// Contents and marks after a part of the marks was made durable.
#[derive(Debug, Drop)]
pub struct Kept {
    pub base: BlockList,
    pub pend: MarkList,
}
