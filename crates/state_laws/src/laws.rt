// What the path says of the state of the storage machine that it stands for.
ghost use Rattle.world_state.specs.Laws.{StateLaws};

/// The command that the engine has to send is due to the storage machine too, and the fault of the bus with its number befalls it there; the
/// host has work there where the driver has, is noticed as the registers signal it, and may issue the request that the driver may.
#[tactic(auto)]
pub fn state_is_read()
    ensures laws { StateLaws }
{}
