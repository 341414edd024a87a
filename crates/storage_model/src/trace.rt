use crate::{Block, BusKind, Letter, Sequence};

/// Why a request failed.
#[derive(Clone, Copy, Debug, PartialEq, Eq)]
pub enum Why {
    Bus,
    Flash,
}

/// What a refused request passed: it ends past the last sector, or it does not begin and end at units.
#[derive(Clone, Copy, Debug, PartialEq, Eq)]
pub enum Limit {
    Range,
    Align,
}

/// How a run ended.
#[derive(Clone, Copy, Debug, PartialEq, Eq)]
pub enum End {
    Good,
    Fault,
    Dead,
    Image,
}

/// One line of a trace. `n` is the number of a bus command, `id` that of a request, both from 1.
#[derive(Clone, Copy, Debug)]
pub enum Item {
    Card {
        sectors: u32,
        depth: u8,
        lines: Option<u16>,
    },
    Issue {
        id: u32,
        tag: u8,
    },
    Params {
        n: u32,
        id: u32,
    },
    Address {
        n: u32,
        id: u32,
    },
    Poll {
        n: u32,
        mask: u32,
    },
    Phase {
        n: u32,
        id: u32,
        count: u16,
        kept: bool,
    },
    Discard {
        n: u32,
    },
    Bus {
        n: u32,
        kind: BusKind,
        id: Option<u32>,
    },
    Flash {
        id: Option<u32>,
    },
    Recover,
    Irq {
        mask: u32,
    },
    Done {
        id: u32,
    },
    Read {
        id: u32,
    },
    Sector {
        value: Block,
    },
    Status {
        id: u32,
        word: u32,
    },
    Fault {
        id: u32,
        why: Why,
    },
    Refused {
        id: u32,
        why: Limit,
    },
    Cut,
    Lost {
        id: u32,
    },
    On,
    Left {
        sector: u32,
        value: Block,
    },
    Turn {
        letter: Letter,
    },
    Off {
        end: End,
    },
}

pub type ItemList = Sequence<Item>;
