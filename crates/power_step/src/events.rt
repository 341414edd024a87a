// Events of the card, the flush that ends a run, and the line of a phase in which power is lost.
ghost use Rattle.std.specs.Prelude.{◌≡◌, None, OnOk, true};
ghost use Rattle.card_core.specs.Card.{HoldsNothing};
ghost use Rattle.card_link.specs.Behind.{Fits};
ghost use Rattle.card_store.specs.Staging.{only_settled};
ghost use Rattle.power_laws.specs.Power.{CardEvent, FlushEvent, phase_cut};
ghost use Rattle.trace_print.specs.Prints.{line_in};
ghost use Rattle.world_state.specs.Path.{behind_path};

use array_edge::Array;
use card_store::StageEnd;
use engine_step::phase_line;
use intent_store::StoreEnd;
use storage_model::Item;
use world_state::Path;

/// The card uses an idle moment: its store stages the oldest line.
///
/// # Errors
///
/// `Empty` where there is none, `Flash` where the array failed, and `PowerLost` where power was lost.
pub fn card_event<A: Array>(path: &mut Path, array: &mut A) -> Result<(), StageEnd>
    requires fits { Fits (behind_path path.old (A.state array.old)) }
    ensures event { CardEvent path.old (A.state array.old) path.new (A.state array.new) result }
{
    let end = path.card.idle(array);
    path.card.store().keeps_lines();
    end
}

/// The flush that ends a run: the card stages all lines, and makes them durable.
///
/// # Errors
///
/// `Flash` where the array failed, and `PowerLost` where power was lost.
pub fn flush_all<A: Array>(path: &mut Path, array: &mut A) -> Result<(), StoreEnd>
    requires fits { Fits (behind_path path.old (A.state array.old)) }
    ensures event { FlushEvent path.old (A.state array.old) path.new (A.state array.new) result }
    ensures settled { OnOk result ((A.state array.new).settled ≡ true) }
    ensures bare { HoldsNothing path.old.card → A.state array.new ≡ only_settled (A.state array.old) (A.state array.new) }
{
    let end = path.card.flush(array);
    path.card.store().keeps_lines();
    end
}

/// The line of the phase that is under way where power is lost; the card tells of it no more.
pub fn phase_cut(path: &mut Path) -> Option<Item>
    ensures line { line_in result ≡ phase_cut path.old }
    ensures path { path.new ≡ record path.old { card = record path.old.card { begun = None } } }
{
    let phase = path.card.take_phase();
    phase_line(path, &phase)
}
