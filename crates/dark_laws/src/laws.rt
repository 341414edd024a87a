// What a state in which power is lost says of the lines behind the cut.
ghost use Rattle.dark_laws.specs.Anew.{IsBack, IsOutlasted, IsTiedAnew, IsTiedOn};
ghost use Rattle.dark_laws.specs.Ends.{EndsDark};
ghost use Rattle.dark_laws.specs.Kept.{IsLeftSo};
ghost use Rattle.dark_laws.specs.Laws.{ArePagesLeft, IsCutHere};
ghost use Rattle.array_edge.specs.Array.{ArrayState};
ghost use Rattle.cut_order.specs.Order.{OrderState};
ghost use Rattle.storage_machine.specs.declared.state.State.{State};
ghost use Rattle.world_state.specs.Path.{PathState};

/// The issued requests are still to be lost, none of them waits with the driver, and what the array shows may be left.
#[tactic(auto)]
pub fn held_are_cut()
    ensures cut { (s : State) → (p : PathState) → (o : OrderState) → (a : ArrayState) → IsCutHere s p o a }
    ensures pages { (s : State) → (p : PathState) → (o : OrderState) → (a : ArrayState) → ArePagesLeft s p o a }
{}

/// The ties hold of the path that is set up anew, whatever the array tells. Behind the lines of the lost requests, of further
/// cuts, and of what is left, it stands for the state of the storage machine.
#[tactic(auto)]
pub fn back_again()
    ensures outlasts { (p : PathState) → IsTiedOn p }
    ensures outlasted { (p : PathState) → (p' : PathState) → IsOutlasted p p' }
    ensures tied { (p : PathState) → (a : ArrayState) → (p' : PathState) → (a' : ArrayState) → IsTiedAnew p a p' a' }
    ensures back { (s : State) → (p : PathState) → (o : OrderState) → (a : ArrayState) → (p' : PathState) → (a' : ArrayState) → IsBack s p o a p' a' }
{}

/// Where a run ends behind a loss of power, in any of its lines, the pages are near the state after the last one.
#[tactic(auto)]
pub fn dark_ends()
    ensures { (s : State) → (p : PathState) → (o : OrderState) → (a : ArrayState) → (a' : ArrayState) → EndsDark s p o a a' }
{}

/// Where nothing of the cache was staged when power was lost, the lines of what is left tell what was kept.
#[tactic(auto)]
pub fn dark_keeps()
    ensures { (s : State) → (p : PathState) → (o : OrderState) → (a : ArrayState) → IsLeftSo s p o a }
{}
