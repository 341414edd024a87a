use crate::Sequence;

/// What befalls a command on the bus: it is lost, its response is lost, its data fails at a block (counted from 1), or
/// its status comes too late.
#[derive(Clone, Copy, Debug, PartialEq, Eq)]
pub enum BusKind {
    Lost,
    NoResp,
    Bad(u16),
    Late,
}

/// A fault of bus command `n`.
#[derive(Clone, Copy, Debug, PartialEq, Eq)]
pub struct Hit {
    pub n: u32,
    pub kind: BusKind,
}

/// A fault of array call `n`, counted from 1 among the fetches or among the programs. A program that fails or is cut
/// leaves the granules of `mask` new and the others old.
#[derive(Clone, Copy, Debug, PartialEq, Eq)]
pub struct ArrayHit {
    pub fetch: bool,
    pub n: u32,
    pub cut: bool,
    pub mask: u8,
}

/// Who acts in the next event.
#[derive(Clone, Copy, Debug, PartialEq, Eq)]
pub enum Letter {
    Host,
    Engine,
    Card,
    Cut,
}

pub type WordList = Sequence<u32>;

pub type HitList = Sequence<Hit>;

pub type ArrayHits = Sequence<ArrayHit>;

pub type LetterList = Sequence<Letter>;

/// A fault text: the words of ready polls, the bus faults, the array faults, the numbers before which power is cut, and
/// the order of events.
#[derive(Debug, Drop)]
pub struct Faults {
    pub ready: WordList,
    pub bus: HitList,
    pub array: ArrayHits,
    pub cuts: WordList,
    pub turns: LetterList,
}
