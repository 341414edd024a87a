ghost use Rattle.std.specs.Prelude.{◌≡◌, ◌<◌, ◌≤◌, [], ◌∷◌, ◌++◌, ◌==◌, length};
ghost use Rattle.cq_chain.specs.Chain.{longest_chain};
ghost use Rattle.cq_chain.specs.Descriptors.{pieces_of};

use arrayvec::ArrayVec;
use cq_desc::Xfer;
use std::marker::Model;

/// The most descriptors of a chain.
pub const LONGEST_CHAIN: usize = 512;

/// A piece of the data: `len` bytes of the memory at `at`, 1 to 65,536 of them.
#[derive(Clone, Copy, Debug, Default, PartialEq, Eq)]
pub struct Piece {
    pub at: u64,
    pub len: u32,
}

/// The pieces of a chain in their order, at most `LONGEST_CHAIN`.
#[derive(Debug, Drop)]
pub struct Pieces {
    pieces: ArrayVec<Piece, LONGEST_CHAIN>,
}

impl Model for Pieces {
    ghost use Rattle.std.specs.Prelude.{List};
    ghost use Rattle.cq_chain.specs.declared.pieces.Piece.{Piece};

    ghost Value = { List Piece };

    ghost view = { λ it. it.pieces.items };
}

impl Pieces {
    /// No pieces.
    pub fn new() -> Pieces
        ensures { result ≡ [] }
    {
        Pieces {
            pieces: ArrayVec::new(),
        }
    }

    /// How many pieces there are.
    pub fn len(&self) -> usize
        ensures value { result ≡ length self.now }
        ensures most { result ≤ longest_chain }
    {
        self.pieces.len()
    }

    /// Whether there are none.
    pub fn is_empty(&self) -> bool
        ensures { result ≡ (length self.now == 0) }
    {
        self.pieces.is_empty()
    }

    /// The pieces in their order.
    pub fn as_slice(&self) -> &[Piece]
        ensures value { result.now ≡ self.now }
        ensures most { length result.now ≤ longest_chain }
    {
        self.pieces.as_slice()
    }

    /// Puts the piece of a transfer behind the others; nothing for a link or a nop.
    pub(crate) fn add(&mut self, desc: Xfer)
        requires { length self.old < LONGEST_CHAIN }
        ensures { self.new ≡ self.old ++ pieces_of (desc ∷ []) }
    {
        if let Xfer::Piece { len, at, .. } = desc {
            self.pieces.push(Piece { at, len });
        }
    }
}
