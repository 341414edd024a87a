// What is said of units, where a unit is one sector, and where it is several.
ghost use Rattle.epoch_cache.specs.Cache.{Cache};
ghost use Rattle.image_form.specs.declared.superblock.Super.{Super};
ghost use Rattle.std.specs.Prelude.{◌≡◌, ◌≤◌, Bool, List, ℕ};
ghost use Rattle.storage_machine.specs.declared.state.State.{State};
ghost use Rattle.storage_model.specs.Left.{is_left};
ghost use Rattle.storage_model.specs.Unit.{IsForm};
ghost use Rattle.storage_model.specs.declared.block.Block.{Block};
ghost use Rattle.storage_model.specs.declared.form.Form.{Form};
ghost use Rattle.storage_model.specs.declared.marks.Mark.{Mark};
ghost use Rattle.storage_model.specs.declared.marks.Put.{Put};
ghost use Rattle.storage_model.specs.declared.plan.Fill.{Fill};
ghost use Rattle.storage_model.specs.declared.plan.Job.{Job};
ghost use Rattle.unit_laws.specs.Laws.{AddsLines, AreBars, AreBlocks, ArePuts, AreRuns, AreUnits, FitsEmpty, IsMixOfSector, IsOldOrNew, IsPartWhole, IsPhaseOfSectors, IsPlain, IsStepOfSectors, IsStoreOfSectors, IsToldPlain, StopsInOrder};
ghost use Rattle.unit_laws.specs.Mixes.{units_left};
ghost use Rattle.unit_laws.specs.Rooms.{form_told};
ghost use Rattle.unit_laws.specs.Writes.{Run, StandInRuns};

/// Where a unit is one sector, what is said of units is what is said of sectors.
#[tactic(auto)]
pub fn units_of_one_are_sectors()
    ensures blocks { (form : Form) → form.unit ≡ 1 → (count : ℕ) → AreBlocks form count }
    ensures mix { (form : Form) → form.unit ≡ 1 → (base : List Block) → (pend : List Mark) → (e s : ℕ) → (left : ℕ → Block) → IsMixOfSector form base pend e s left }
    ensures left { (form : Form) → form.unit ≡ 1 → (base : List Block) → (pend : List Mark) → (after : List Block) → units_left form base pend after ≡ is_left base pend after }
    ensures runs { (form : Form) → form.unit ≡ 1 → (pend : List Mark) → StandInRuns form pend }
    ensures phase { (form : Form) → IsPlain form → (s : State) → (job : Job) → (count : ℕ) → IsPhaseOfSectors form s job count }
    ensures step { (form : Form) → form.unit ≡ 1 → (s : State) → IsStepOfSectors form s }
    ensures store { (form : Form) → form.unit ≡ 1 → (put : Put) → (cache : Cache) → IsStoreOfSectors form put cache }
    ensures told { (block : Block) → (super : Super) → (policy : ℕ) → IsToldPlain block super policy }
{}

/// Whatever a unit's sectors are: a write appends its blocks in runs of whole units, a task that isn't of whole units is
/// refused behind one that is past the end, and a unit that is written reliably is left old or new as a whole.
#[tactic(auto)]
pub fn units_hold_together()
    ensures puts { (form : Form) → (blocks : List Block) → (sector : ℕ) → (fill : Fill) → (reliable : Bool) → (before units : ℕ) → ArePuts form blocks sector fill reliable before units }
    ensures runs { (form : Form) → (blocks : List Block) → (sector : ℕ) → (fill : Fill) → (reliable : Bool) → (before units : ℕ) → AreRuns form blocks sector fill reliable before units }
    ensures blocks { (form : Form) → 1 ≤ form.unit → (count : ℕ) → AreUnits form count }
    ensures bars { (form : Form) → (s : State) → (job : Job) → (count : ℕ) → AreBars form s job count }
    ensures stop { (form : Form) → (s : State) → (n id : ℕ) → StopsInOrder form s n id }
    ensures part { (form : Form) → (base : List Block) → (pend : List Mark) → (e k : ℕ) → (left : ℕ → Block) → IsPartWhole form base pend e k left }
    ensures whole { (form : Form) → (base : List Block) → (pend : List Mark) → (run : Run) → (left : ℕ → Block) → IsOldOrNew form base pend run left }
{}

/// The form that an image tells is one of the two, a unit's puts add as many lines as it is said to need, and a cache for
/// any number of lines has room for a unit.
#[tactic(auto)]
pub fn units_have_room()
    ensures told { (super : Super) → (policy : ℕ) → IsForm (form_told super policy) }
    ensures lines { (form : Form) → (run : Run) → (cache : Cache) → AddsLines form run cache }
    ensures empty { (form : Form) → (k last lines : ℕ) → FitsEmpty form k last lines }
{}
