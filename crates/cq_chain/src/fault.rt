/// Why a chain of transfer descriptors is refused.
#[derive(Clone, Copy, Debug, PartialEq, Eq)]
pub enum ChainFault {
    /// A byte of a descriptor or of a piece isn't in the memory.
    Hole,
    /// The valid bit of a descriptor is 0.
    NotValid,
    /// A descriptor's act is none of a transfer, a link and a nop.
    BadAct,
    /// The lengths add up to more than the wanted bytes.
    Long,
    /// The chain ends before the wanted bytes.
    Short,
    /// There is no end within `LONGEST_CHAIN` descriptors.
    TooMany,
}
