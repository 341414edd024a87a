// Control stands alone: with other contents the same lines come and do the same to it.
ghost use Rattle.control_laws.specs.Laws.{AreContentsKept, IsControlEffect, IsControlOrder, IsControlRule, IsControlStep, IsControlTrace};
ghost use Rattle.control_laws.specs.Parts.{Contents};
ghost use Rattle.std.specs.Prelude.{List};
ghost use Rattle.storage_machine.specs.declared.state.State.{State};
ghost use Rattle.storage_model.specs.declared.trace.Item.{Item};

/// With other contents of the same outline a line breaks the same rules, but for what contents answer to a `sector` and a
/// `left` line; it stands in the same event, in the same order, and does the same to control; so does a trace, line by line.
/// Few lines change contents, and the others leave them as they are.
#[tactic(auto)]
pub fn control_stands_alone()
    ensures rules { (s : State) → (c : Contents) → (item : Item) → IsControlRule s c item }
    ensures order { (s : State) → (c : Contents) → (item : Item) → IsControlOrder s c item }
    ensures effects { (s : State) → (c : Contents) → (item : Item) → IsControlEffect s c item }
    ensures steps { (s : State) → (c : Contents) → (item : Item) → IsControlStep s c item }
    ensures traces { (s t : State) → (items : List Item) → IsControlTrace s t items }
    ensures contents { (s : State) → (item : Item) → AreContentsKept s item }
{}
