// What is left to do on the path, before and after an event of the host.
ghost use Rattle.host_falls.specs.HostFalls.{HostFalls, HostIsLit, HostRests, IsReadOff};

/// After an event of the host that has work, less is left to do, and as much after one that has none. Power
/// stays on. Memory, card and array have no part in it.
#[tactic(auto)]
pub fn host_has_less_to_do()
    ensures falls { HostFalls }
    ensures rests { HostRests }
    ensures lit { HostIsLit }
    ensures read_off { IsReadOff }
{}
