use crate::Sequence;

/// The granules of a sector or a page, of 64 bytes each.
pub const GRANULES: usize = 8;

/// The 512 bytes of a sector or a page.
#[derive(Clone, Copy, Debug, PartialEq, Eq)]
pub struct Block(pub [u8; 512]);

pub type BlockList = Sequence<Block>;

pub type Bytes = Sequence<u8>;
