// Which request is next.

/// The tag of direct requests: the last slot of the task descriptor list.
pub const DIRECT_TAG: u8 = 31;

/// A request that may be issued, counted from 1, and its tag.
#[derive(Clone, Copy, Debug, PartialEq, Eq)]
pub struct Due {
    pub id: u32,
    pub tag: u8,
}

/// Why no request may be issued.
#[derive(Clone, Copy, Debug, PartialEq, Eq)]
pub enum Hold {
    /// None waits.
    Done,
    /// It is direct and another is issued, or a direct one is issued.
    Behind,
    /// All tags are used.
    Full,
}
