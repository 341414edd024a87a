// What the lines of an event, of its cut and of the rest make of a step.
ghost use Rattle.array_edge.specs.Array.{ArrayState};
ghost use Rattle.cut_order.specs.Order.{OrderState};
ghost use Rattle.join_laws.specs.Flushes.{IsFlushBackOn, IsFlushEnded, IsFlushStopped};
ghost use Rattle.join_laws.specs.Fronts.{IsStoppedAtCut, IsStoppedBehind, IsStoppedDark, IsStoppedLast, IsStoppedLit};
ghost use Rattle.join_laws.specs.Joins.{IsBackOn, IsEndedIn, IsLit};
ghost use Rattle.join_laws.specs.Uses.{IsUsedBehind};
ghost use Rattle.std.specs.Prelude.{List};
ghost use Rattle.storage_model.specs.declared.faults.Letter.{Letter};
ghost use Rattle.storage_model.specs.declared.trace.End.{End};
ghost use Rattle.storage_model.specs.declared.trace.Item.{Item};
ghost use Rattle.world_state.specs.Path.{PathState};
ghost use Rattle.world_state.specs.Reading.{Context};
ghost use Rattle.world_steps.specs.World.{WorldState};

/// Behind its lines an event leads to a state that the world stands for: where the power stays on, and where it comes back
/// behind a cut. Else the run ends.
#[tactic(auto)]
pub fn events_go_on()
    ensures lit { (w : WorldState) → (c : Context) → (actor : Letter) → (items : List Item) → (p : PathState) → (a : ArrayState) → IsLit w c actor items p a }
    ensures back { (w : WorldState) → (c : Context) → (actor : Letter) → (items : List Item) → (p : PathState) → (a : ArrayState) → (more : List Item) → (p' : PathState) → (a' : ArrayState) → IsBackOn w c actor items p a more p' a' }
    ensures ended { (w : WorldState) → (c : Context) → (actor : Letter) → (items : List Item) → (p : PathState) → (a : ArrayState) → (first : List Item) → (end : End) → (a' : ArrayState) → IsEndedIn w c actor items p a first end a' }
{}

/// The lines up to one that broke off begin the event, and the pages are near the state behind it.
#[tactic(auto)]
pub fn events_break_off()
    ensures lit { (w : WorldState) → (c : Context) → (actor : Letter) → (whole : List Item) → (item : Item) → (rest : List Item) → IsStoppedLit w c actor whole item rest }
    ensures dark { (w : WorldState) → (c : Context) → (actor : Letter) → (whole : List Item) → (item : Item) → (rest : List Item) → IsStoppedDark w c actor whole item rest }
    ensures last { (w : WorldState) → (c : Context) → (actor : Letter) → (item : Item) → (others : List Item) → (p : PathState) → (o : OrderState) → (a : ArrayState) → IsStoppedLast w c actor item others p o a }
    ensures cut { (w : WorldState) → (c : Context) → (actor : Letter) → (items : List Item) → (p : PathState) → (a : ArrayState) → IsStoppedAtCut w c actor items p a }
    ensures behind { (w : WorldState) → (c : Context) → (actor : Letter) → (items : List Item) → (p : PathState) → (a : ArrayState) → (whole : List Item) → (a' : ArrayState) → IsStoppedBehind w c actor items p a whole a' }
{}

/// Where nothing is to do and the last flush loses power, the lines from the cut on are those of a part of the run.
#[tactic(auto)]
pub fn flushes_lose_power()
    ensures back { (w : WorldState) → (c : Context) → (more : List Item) → (p : PathState) → (a : ArrayState) → IsFlushBackOn w c more p a }
    ensures ended { (w : WorldState) → (c : Context) → (first : List Item) → (end : End) → (a : ArrayState) → IsFlushEnded w c first end a }
    ensures stopped { (w : WorldState) → (c : Context) → (whole : List Item) → (a : ArrayState) → IsFlushStopped w c whole a }
{}

/// Behind an event in which power is lost, the letters and the `cut` lines are used as the world says.
#[tactic(auto)]
pub fn cuts_use_lines()
    ensures { (w : WorldState) → (c : Context) → (actor : Letter) → IsUsedBehind w c actor }
{}
