// How the card's calls end.
ghost use Rattle.std.specs.Prelude.{◌≡◌};
ghost use Rattle.card_core.specs.Serving.{block_answer, word_answer, word_of, without_error};

use bitflags::Flags;
use cmd_words::Status;
use intent_store::StoreEnd;

/// The power was cut in this call or was off: the card is dark and answers nothing.
#[derive(Clone, Copy, Debug, PartialEq, Eq)]
pub struct Dark;

/// Why a block did not move: the array failed, with the status word that tells it, or the card is dark.
#[derive(Clone, Copy, Debug, PartialEq, Eq)]
pub enum BlockEnd {
    Status(u32),
    Dark,
}

// The word without an error.
pub fn idle_word() -> u32
    ensures { result ≡ without_error }
{
    Status::empty().word()
}

// The word of a command for which the store was called: ERROR where the array failed.
pub fn word_after(end: Result<(), StoreEnd>) -> Result<u32, Dark>
    ensures { result ≡ word_answer end }
{
    match end {
        Ok(()) => Ok(idle_word()),
        Err(StoreEnd::Flash) => Ok(Status::ERROR.word()),
        Err(StoreEnd::PowerLost) => Err(Dark),
    }
}

// The end of a block for which the store was called: this error where the array failed.
pub fn block_after(error: Status, end: Result<(), StoreEnd>) -> Result<(), BlockEnd>
    ensures { result ≡ block_answer error end }
{
    match end {
        Ok(()) => Ok(()),
        Err(StoreEnd::Flash) => Err(BlockEnd::Status(error.word())),
        Err(StoreEnd::PowerLost) => Err(BlockEnd::Dark),
    }
}
