// The beginning of a run.
ghost use Rattle.std.specs.Prelude.{◌≡◌, Err, IsSome, OnOk};
ghost use Rattle.storage_model.specs.Count.{Later, Rose};
ghost use Rattle.storage_model.specs.declared.ends.Halt.TheVariants.{SinkFailed};
ghost use Rattle.storage_model.specs.Plan.{IsValidPlan};
ghost use Rattle.storage_model.specs.declared.faults.Faults.{Faults};
ghost use Rattle.storage_model.specs.declared.plan.Plan.{Plan};
ghost use Rattle.cut_order.specs.Order.{OrderState};
ghost use Rattle.drv_core.specs.SetUp.{set_up};
ghost use Rattle.end_laws.specs.Ends.{AreToCome, IsFresh};
ghost use Rattle.run_laws.specs.Whole.{lines_shown};
ghost use Rattle.world.specs.First.{OpensFirst};
ghost use Rattle.world.specs.Runs.{Boots, first_line, in_order};
ghost use Rattle.world_state.specs.Path.{plan_of};

use crate::world::World;
use array_edge::Array;
use card_core::Card as FlashCard;
use dark_laws::back_again;
use end_laws::{runs_begin_sound, runs_stand_opened};
use intent_store::StartEnd;
use io_edge::Sink;
use storage_model::{Halt, Item, Plan as RunPlan};
use trace_print::print;
use world_state::Path;

/// How many openings in a row may be cut.
const MOST_OPENINGS: u32 = 8;

impl World {
    /// Opens the image, sets the path up, and prints the line of the card. An opening that is cut begins again.
    ///
    /// # Errors
    ///
    /// `OpenFault` where the array failed, `PowerGone` where 8 openings in a row were cut, `BadImage` where the pages are no
    /// image, and `SinkFailed` where the sink failed.
    pub fn boot<A: Array, K: Sink>(&mut self, array: &mut A, out: &mut K) -> Result<(), Halt>
        ensures boots { (plan : Plan) → (faults : Faults) → IsValidPlan plan → AreToCome faults → IsFresh plan faults self.old → Boots K.took plan faults (A.state array.old) out.old result self.new (A.state array.new) out.new }
        ensures faults { Later (K.faults out.old) (K.faults out.new) }
        ensures failed { result ≡ Err SinkFailed → Rose (K.faults out.old) (K.faults out.new) }
    {
        begin_run(&mut self.path, array, out)
    }
}

// The first line, behind the opening.
fn begin_run<A: Array, K: Sink>(path: &mut Path, array: &mut A, out: &mut K) -> Result<(), Halt>
    ensures boots { (order : OrderState) → (plan : Plan) → (faults : Faults) → IsValidPlan plan → AreToCome faults → IsFresh plan faults (in_order path.old order) → Boots K.took plan faults (A.state array.old) out.old result (in_order path.new order) (A.state array.new) out.new }
    ensures faults { Later (K.faults out.old) (K.faults out.new) }
    ensures failed { result ≡ Err SinkFailed → Rose (K.faults out.old) (K.faults out.new) }
{
    runs_begin_sound();
    runs_stand_opened();
    back_again();
    open_path(path, array)?;
    let line = card_line(path);
    print(&line, out)
}

// Opens the image, and sets the registers up.
fn open_path<A: Array>(path: &mut Path, array: &mut A) -> Result<(), Halt>
    ensures opens { OpensFirst path.old.card (A.state array.old) result path.new.card (A.state array.new) }
    ensures path { OnOk result (path.new ≡ record path.old { regs = set_up (plan_of path.old) path.old.regs; card = path.new.card }) }
{
    open_first(&mut path.card, array)?;
    path.driver.set_up(&mut path.regs);
    Ok(())
}

// Opens the image and sets the card up.
fn open_first<A: Array>(card: &mut FlashCard, array: &mut A) -> Result<(), Halt>
    ensures opens { OpensFirst card.old (A.state array.old) result card.new (A.state array.new) }
{
    let mut cuts = 0;
    while cuts < MOST_OPENINGS {
        match card.boot(array) {
            Ok(()) => {
                card.store().keeps_lines();
                return Ok(());
            }
            Err(StartEnd::PowerLost) => {}
            Err(StartEnd::Flash) => return Err(Halt::OpenFault),
            Err(StartEnd::BadImage) => return Err(Halt::BadImage),
        }
        cuts += 1;
    }
    Err(Halt::PowerGone)
}

// The line of the card.
fn card_line(path: &Path) -> Item
    requires { IsSome path.now.card.store.known }
    ensures { result ≡ first_line path.now }
{
    let plan = path.driver.plan();
    Item::Card {
        sectors: path.card.store().sectors(),
        depth: plan.depth,
        lines: lines_shown(plan),
    }
}

// The lines of a plan's cache, or that it is off.
fn lines_shown(plan: &RunPlan) -> Option<u16>
    ensures { result ≡ lines_shown plan.now }
{
    if plan.through { None } else { Some(plan.lines) }
}
