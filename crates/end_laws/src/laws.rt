// The beginning and the end of a run.
ghost use Rattle.end_laws.specs.Ends.{EndsByFlush, IsSoundFresh, StandsOpened};

use dark_laws::back_again;
use power_laws::power_and_card_make_events;

/// The path of a run before its first line is sound.
#[tactic(auto)]
pub fn runs_begin_sound()
    ensures { IsSoundFresh }
{}

/// Once its card is open, it stands for the storage machine's state behind the first line.
#[tactic(auto)]
pub fn runs_stand_opened()
    ensures { StandsOpened }
{
    back_again();
}

/// Where nothing is to do, the end's line may come behind the last flush, and behind a good one the pages are what the storage
/// machine kept, and path and array stand for its state.
#[tactic(auto)]
pub fn runs_end_by_flush()
    ensures { EndsByFlush }
{
    power_and_card_make_events();
}
