// The words of the card that stop the engine.
ghost use Rattle.word_laws.specs.Words.{EngineStops};

/// While the holders agree with each other, an event of the engine in which the card's response stops it has a word that ends the request it is of:
/// one of a fault of the flash, or of a task past the last sector. So it is whatever the array tells.
#[tactic(auto)]
pub fn engine_stops_by_error()
    ensures words { EngineStops }
{}
