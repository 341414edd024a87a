// Why a call ends early.
ghost use Rattle.std.specs.Prelude.{◌≡◌};
ghost use Rattle.storage_model.specs.declared.ends.NoMemory.{NoMemory};
ghost use Rattle.storage_model.specs.declared.ends.TextEnd.TheVariants.{NoMemory as OutOfMemory};

use std::alloc::{AllocError, AllocFailed};

/// Memory was wanted and refused.
#[derive(Clone, Copy, Debug, PartialEq, Eq)]
pub struct NoMemory;

impl From<AllocError> for NoMemory {
    fn from(_: AllocError) -> Self {
        NoMemory
    }
}

impl<T: Drop> From<AllocFailed<T>> for NoMemory {
    fn from(_: AllocFailed<T>) -> Self {
        NoMemory
    }
}

/// Why a text was not read.
#[derive(Clone, Copy, Debug, PartialEq, Eq)]
pub enum TextEnd {
    /// The first line, counted from 1, that is not of the grammar or passes a limit.
    Bad { line: u32 },
    NoMemory,
}

impl From<NoMemory> for TextEnd {
    ghost from_gives = { λ _ end. end ≡ OutOfMemory };

    fn from(_: NoMemory) -> Self {
        TextEnd::NoMemory
    }
}

impl From<AllocError> for TextEnd {
    ghost from_gives = { λ _ end. end ≡ OutOfMemory };

    fn from(_: AllocError) -> Self {
        TextEnd::NoMemory
    }
}

impl<T: Drop> From<AllocFailed<T>> for TextEnd {
    ghost from_gives = { λ _ end. end ≡ OutOfMemory };

    fn from(_: AllocFailed<T>) -> Self {
        TextEnd::NoMemory
    }
}

/// Why a run stops for good: the sink failed, the array failed in an opening or a last flush, eight openings in a row
/// were cut, or the pages are no image.
#[derive(Clone, Copy, Debug, PartialEq, Eq)]
pub enum Halt {
    SinkFailed,
    OpenFault,
    PowerGone,
    BadImage,
}
