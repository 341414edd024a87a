use storage_model::Block;

/// A line of the cache: the value that a sector has at the end of an epoch, and whether the sector is to be programmed
/// whole, since a reliable write is in it.
#[derive(Clone, Copy, Debug, PartialEq, Eq)]
pub struct Line {
    pub sector: u32,
    pub value: Block,
    pub whole: bool,
    pub epoch: u32,
}
