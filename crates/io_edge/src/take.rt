ghost use Rattle.std.specs.Prelude.{◌≡◌, ◌+◌, ◌<◌, ◌≤◌, [], length, IfOk, OnOk, OnErr, IfSome, vec_len};
ghost use Rattle.storage_model.specs.Count.{Later, Rose};
ghost use Rattle.io_edge.specs.Source.{TakesUpTo, LosesFront, joined};
ghost use Rattle.io_edge.specs.declared.take.TakeEnd.TheVariants.{Failed as SourceFailed, NoMemory as OutOfMemory};

use crate::{Failed, Source};
use std::alloc::{AllocError, Global};
use storage_model::Bytes;

/// Why the bytes of a source were not taken.
#[derive(Clone, Copy, Debug, PartialEq, Eq)]
pub enum TakeEnd {
    /// The source failed.
    Failed,
    NoMemory,
}

impl From<Failed> for TakeEnd {
    ghost from_gives = { λ _ end. end ≡ SourceFailed };

    fn from(_: Failed) -> Self {
        TakeEnd::Failed
    }
}

impl From<AllocError> for TakeEnd {
    ghost from_gives = { λ _ end. end ≡ OutOfMemory };

    fn from(_: AllocError) -> Self {
        TakeEnd::NoMemory
    }
}

// How many bytes are asked of a source at once.
const PIECE: usize = 8192;

/// The bytes of the source up to its end, or the first `limit` + 1 of them. So a result of more than `limit` bytes says
/// that the source has too many.
pub fn take_all<S: Source>(alloc: Global, source: &mut S, limit: u32) -> Result<Bytes, TakeEnd>
    ensures taken { IfOk result (λ bytes. TakesUpTo (S.left source.old) (limit + 1) bytes (S.left source.new)) }
    ensures within { IfOk result (λ bytes. length bytes ≤ limit + 1) }
    ensures err { OnErr result (LosesFront (S.left source.old) (S.left source.new)) }
    ensures faults { Later (S.faults source.old) (S.faults source.new) }
    ensures calm { OnOk result (S.faults source.new ≡ S.faults source.old) }
    ensures unread { result ≡ Err TakeEnd.NoMemory → S.faults source.new ≡ S.faults source.old }
    ensures failed { result ≡ Err TakeEnd.Failed → Rose (S.faults source.old) (S.faults source.new) }
{
    let most = limit as usize + 1;
    let mut taken = Vec::new(alloc);
    let mut piece = [0; PIECE];
    while taken.len() < most {
        let room = PIECE.min(most - taken.len());
        if take_piece(source, &mut piece[..room], &mut taken)? == 0 {
            break;
        }
    }
    Ok(Bytes::from_vec(taken))
}

// Moves bytes of the source to the end of `taken`, at most as many as `piece` has, and answers their number. Before the
// source is asked there is memory for them, so that no error loses any.
fn take_piece<S: Source>(
    source: &mut S,
    piece: &mut [u8],
    taken: &mut Vec<u8>,
) -> Result<usize, TakeEnd>
    ensures within { IfOk result (λ n. n ≤ length piece.old) }
    ensures len { IfOk result (λ n. vec_len taken.new ≡ vec_len taken.old + n) }
    ensures end { IfOk result (λ n. 0 < length piece.old → n ≡ 0 → IfSome (S.left source.new) (λ left. left ≡ [])) }
    ensures joined { joined taken.new.items (S.left source.new) ≡ joined taken.old.items (S.left source.old) }
    ensures faults { Later (S.faults source.old) (S.faults source.new) }
    ensures calm { OnOk result (S.faults source.new ≡ S.faults source.old) }
    ensures unread { result ≡ Err TakeEnd.NoMemory → S.faults source.new ≡ S.faults source.old }
    ensures failed { result ≡ Err TakeEnd.Failed → Rose (S.faults source.old) (S.faults source.new) }
{
    taken.reserve(piece.len())?;
    let n = source.fill(piece)?;
    taken.extend_from_slice(&piece[..n])?;
    Ok(n)
}
