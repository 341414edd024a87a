// What is left to do on the path, before and after an event.
ghost use Rattle.fall_laws.specs.Falls.{AnewFalls, EngineFalls, EngineGoesOn, EngineMost, OrderFalls};

/// After an event of the engine, less is left to do while the host has no work and a request has no answer, and at any time
/// no more. The script goes on.
#[tactic(auto)]
pub fn engine_has_less_to_do()
    ensures falls { EngineFalls }
    ensures most { EngineMost }
    ensures script { EngineGoesOn }
{}

/// After a loss of power no more is left to do, and less where a request was issued.
#[tactic(auto)]
pub fn power_lost_leaves_no_more_to_do()
    ensures { AnewFalls }
{}

/// A letter or a `cut` line that an event uses pays for what it leads to.
#[tactic(auto)]
pub fn used_lines_pay()
    ensures { OrderFalls }
{}
