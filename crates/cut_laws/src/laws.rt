// The lines behind the first `cut`.
ghost use Rattle.cut_laws.specs.Laws.{AreCutsShown, AreLostShown, IsEndShown, IsPartShown, IsPowerShown, IsUnreadShown};
ghost use Rattle.std.specs.Prelude.{Bool, List, ℕ};
ghost use Rattle.storage_machine.specs.declared.state.State.{State};
ghost use Rattle.storage_model.specs.declared.block.Block.{Block};
ghost use Rattle.storage_model.specs.declared.trace.End.{End};

/// The issued requests are lost by number. Where all are, no task and no data is left, and only those requests wait that
/// weren't issued.
#[tactic(auto)]
pub fn lost_are_shown()
    ensures { (waiting : List Bool) → (s : State) → (all : Bool) → (ids : List ℕ) → AreLostShown waiting s all ids }
{}

/// Behind them come further cuts, and an end, or the line that the power is on with what is left: all of it, some of it, or
/// some of it and an end.
#[tactic(auto)]
pub fn power_is_shown()
    ensures cuts { (s : State) → (cuts : ℕ) → AreCutsShown s cuts }
    ensures end { (s : State) → (cuts : ℕ) → (end : End) → IsEndShown s cuts end }
    ensures powered { (s : State) → (cuts : ℕ) → (after : List Block) → IsPowerShown s cuts after }
    ensures part { (s : State) → (cuts : ℕ) → (after : List Block) → (n : ℕ) → IsPartShown s cuts after n }
    ensures unread { (s : State) → (cuts : ℕ) → (after : List Block) → (n : ℕ) → IsUnreadShown s cuts after n }
{}
