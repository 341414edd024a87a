ghost use Rattle.std.specs.Prelude.{◌≡◌, ◌≤◌, length};

use arrayvec::ArrayVec;
use std::marker::Model;

const MAX_PEEKED: usize = 512;

/// Bytes of the host's memory, at most 512. Contracts see them as a list.
#[derive(Drop)]
pub struct Peeked {
    bytes: ArrayVec<u8, MAX_PEEKED>,
}

impl Model for Peeked {
    ghost use Rattle.std.specs.Prelude.{List, ℕ};

    ghost Value = { List ℕ };

    ghost view = { λ peeked. peeked.bytes.items };
}

impl Peeked {
    /// A copy of these bytes.
    pub fn of(bytes: &[u8]) -> Self
        requires { length bytes.now ≤ 512 }
        ensures { result ≡ bytes.now }
    {
        let mut copy = ArrayVec::new();
        copy.try_extend_from_slice(bytes).unwrap();
        Peeked { bytes: copy }
    }

    pub fn as_slice(&self) -> &[u8]
        ensures bytes { result.now ≡ self.now }
        ensures few { length result.now ≤ 512 }
    {
        self.bytes.as_slice()
    }
}
