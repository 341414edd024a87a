// Events of the card and of power, and the flush that ends a run.
ghost use Rattle.power_laws.specs.Power.{CardSteps, FlushSteps, PowerSteps, UsesLine};

use state_laws::state_is_read;

/// An event of the card keeps the ties, and its lines are the storage machine's. Where power is lost in it, in one of power or in
/// the flush that ends a run, the cut may come behind them.
#[tactic(auto)]
pub fn power_and_card_make_events()
    ensures card { CardSteps }
    ensures power { PowerSteps }
    ensures flush { FlushSteps }
    ensures line { UsesLine }
{
    state_is_read();
}
