// What may be left after a cut, and the lines that show it.
ghost use Rattle.left_laws.specs.Laws.{AreFirstShown, AreKept, IsFaultShown, IsFirstState, IsLastState, IsLeftShown, IsNextSector, IsNextShown, IsNoSector, IsOnShown, IsRestKept, IsSectorPassed, IsShown, IsShownBelow, IsShownSo, TurnsOn};
ghost use Rattle.std.specs.Prelude.{List, ℕ};
ghost use Rattle.storage_machine.specs.declared.state.State.{State};
ghost use Rattle.storage_model.specs.declared.block.Block.{Block};
ghost use Rattle.storage_model.specs.declared.marks.Mark.{Mark};
ghost use Rattle.storage_model.specs.declared.trace.Item.{Item};

/// Where the power comes on, what is left of each sector with a put is owed, and nothing is where there is none.
#[tactic(auto)]
pub fn power_owes_what_is_left()
    ensures { (s : State) → TurnsOn s }
{}

/// Where each block is whole, a sector without a put is left as it was kept.
#[tactic(auto)]
pub fn other_sectors_are_kept()
    ensures { (base after : List Block) → (pend : List Mark) → IsRestKept base pend after }
{}

/// The lines of contents that a cut may leave may stand, one after the other, and lead to these contents without marks; so
/// may the first of them, and with the line that the power is on.
#[tactic(auto)]
pub fn left_is_shown()
    ensures whole { (s : State) → (after : List Block) → IsShown s after }
    ensures below { (s : State) → (after : List Block) → (n : ℕ) → IsShownBelow s after n }
    ensures first { (s : State) → (after : List Block) → (k : ℕ) → AreFirstShown s after k }
    ensures powered { (s : State) → (after : List Block) → IsOnShown s after }
{}

/// Line by line, and sector by sector; and the end in place of a line.
#[tactic(auto)]
pub fn next_line_is_shown()
    ensures start { (s : State) → (after : List Block) → IsFirstState s after }
    ensures sector { (pend : List Mark) → (n k : ℕ) → IsNextSector pend n k }
    ensures none { (base : List Block) → (pend : List Mark) → (n : ℕ) → IsNoSector base pend n }
    ensures next { (s : State) → (after : List Block) → (n k : ℕ) → IsNextShown s after n k }
    ensures passed { (s : State) → (after : List Block) → (n : ℕ) → IsSectorPassed s after n }
    ensures last { (s : State) → (after : List Block) → (n : ℕ) → IsLastState s after n }
    ensures fault { (s : State) → (after : List Block) → (n k : ℕ) → IsFaultShown s after n k }
    ensures so { (s : State) → (after : List Block) → (n k : ℕ) → IsShownSo s after n k }
{}

/// Lines that may stand, up to the last, show contents that a cut may leave.
#[tactic(auto)]
pub fn shown_is_left()
    ensures left { (s t : State) → (lines : List Item) → IsLeftShown s lines t }
    ensures kept { (s t : State) → (lines : List Item) → AreKept s lines t }
{}
